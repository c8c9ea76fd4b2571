// Counts of hosts, lanes and shards.
ghost use Rattle.std.specs.Prelude.{IfOk, ◌≡◌, ◌≤◌};
ghost use Rattle.text_grammar.specs.Cuts.{words_of};
ghost use Rattle.text_grammar.specs.Readings.{read, reading};
ghost use Rattle.schedule_header.specs.Forms.{count, count_line};

use base_ids::LimitName;
use schedule_words::number;
use text_grammar::{Fault, TextRule, next_word, no_word};

/// A count that is below the limit of its type. More than `most` passes the named limit, and 0 is `BadHeader`.
#[tactic(auto, unfolding(crate::specs::Forms::count))]
fn count(limit: u128, most: u16, name: LimitName, word: &[u8]) -> Result<u16, Fault>
    ensures count { result ≡ read (count limit most name) word.now }
    ensures few { IfOk result (λ count. count ≤ most) }
{
    let count = number(limit, word)?;
    if count > u128::from(most) {
        Err(Fault::Limit(name))
    } else if count >= 1 {
        Ok(count as u16)
    } else {
        Err(Fault::Refused(TextRule::BadHeader))
    }
}

/// A count, and nothing more.
#[tactic(auto, unfolding(crate::specs::Forms::count_line))]
pub(crate) fn count_line(
    limit: u128,
    most: u16,
    name: LimitName,
    words: &[u8],
) -> Result<u16, Fault>
    ensures count { result ≡ reading (count_line limit most name) (words_of words.now) }
    ensures few { IfOk result (λ count. count ≤ most) }
{
    let (word, words) = next_word(words)?;
    let count = count(limit, most, name, word)?;
    no_word(words)?;
    Ok(count)
}
