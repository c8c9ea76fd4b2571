// Shorthands.
ghost use Rattle.std.specs.Prelude.{◌≡◌};
ghost use Rattle.text_grammar.specs.Cuts.{words_of};
ghost use Rattle.text_grammar.specs.Readings.{reading};
ghost use Rattle.text_grammar.specs.Results.{Gives};
ghost use Rattle.schedule_lines.specs.Forms.{do_at, do_form, mono_form, short_by};

use crate::operations::{operation_at, with_level};
use crate::parts::{of_command, of_host, of_session};
use crate::verbs::ShortVerb;
use base_ids::LaneId;
use cluster_history::Operation;
use schedule_data::Shorthand;
use schedule_words::{Counts, Format, lane, level_in, table_number, token};
use std::alloc::Global;
use text_grammar::{Fault, LineError, TextRule, is_end, next_word, no_word};

/// A request at the level that ends the line, with all that follows.
#[tactic(auto, unfolding(crate::specs::Forms::do_at))]
fn do_at(
    format: Format,
    lane: LaneId,
    operation: Operation,
    words: &[u8],
) -> Result<Shorthand, Fault>
    ensures { result ≡ reading (do_at format lane operation) (words_of words.now) }
{
    let (word, words) = next_word(words)?;
    let Some(level) = level_in(format, word) else {
        return Err(Fault::Refused(TextRule::BadWord));
    };
    no_word(words)?;
    let operation = with_level(level, operation);
    Ok(Shorthand::Do { lane, operation })
}

/// A request with all that follows, `L OPERATION`, with a level or without.
#[tactic(auto, unfolding(crate::specs::Forms::do_form), using(crate::proofs::OperationLemmas::operation_then))]
fn do_form(counts: &Counts, words: &[u8]) -> Result<Shorthand, Fault>
    ensures { result ≡ reading (do_form counts.now) (words_of words.now) }
{
    let (word, words) = next_word(words)?;
    let lane = lane(counts, word)?;
    let (operation, words) = match operation_at(words) {
        Ok(found) => found,
        Err(fault) => return Err(fault),
    };
    if is_end(words) {
        return Ok(Shorthand::Do { lane, operation });
    }
    do_at(counts.format, lane, operation, words)
}

/// A repaired read, `L T TOKEN`.
#[tactic(auto, unfolding(crate::specs::Forms::mono_form))]
fn mono_form(counts: &Counts, words: &[u8]) -> Result<Shorthand, Fault>
    ensures { result ≡ reading (mono_form counts.now) (words_of words.now) }
{
    let (word, words) = next_word(words)?;
    let lane = lane(counts, word)?;
    let (word, words) = next_word(words)?;
    let table = table_number(word)?;
    let (word, words) = next_word(words)?;
    let token = token(word)?;
    no_word(words)?;
    Ok(Shorthand::Mono { lane, table, token })
}

/// A shorthand, by its first word.
pub fn short_by(
    alloc: Global,
    counts: &Counts,
    verb: ShortVerb,
    words: &[u8],
) -> Result<Shorthand, LineError>
    ensures { Gives (λ x. x) result (reading (short_by counts.now verb) (words_of words.now)) }
{
    match verb {
        ShortVerb::Sync => {
            no_word(words)?;
            Ok(Shorthand::Sync)
        }
        ShortVerb::Do => Ok(do_form(counts, words)?),
        ShortVerb::Mono => Ok(mono_form(counts, words)?),
        ShortVerb::Drain => Ok(Shorthand::Drain(of_host(counts, words)?)),
        ShortVerb::Fence => Ok(Shorthand::Fence(of_host(counts, words)?)),
        ShortVerb::Step => {
            let (topo, command) = of_command(alloc, counts, words)?;
            Ok(Shorthand::Step { topo, command })
        }
        ShortVerb::Force => {
            let (topo, command) = of_command(alloc, counts, words)?;
            Ok(Shorthand::Force { topo, command })
        }
        ShortVerb::Stream => {
            let (topo, session) = of_session(counts, words)?;
            Ok(Shorthand::Stream { topo, session })
        }
        ShortVerb::Tidy => {
            let (topo, session) = of_session(counts, words)?;
            Ok(Shorthand::Tidy { topo, session })
        }
        ShortVerb::Ready => {
            let (topo, session) = of_session(counts, words)?;
            Ok(Shorthand::Ready { topo, session })
        }
    }
}
