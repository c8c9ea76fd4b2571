// The words of a line, none of which is copied.
ghost use Rattle.std.specs.Prelude.{◌≡◌, ◌==◌, ◌<◌, ◌∷◌, length};
ghost use Rattle.std.specs.List.{position};
ghost use Rattle.std.specs.Option.{option_map};
ghost use Rattle.text_grammar.specs.Cuts.{words_of, starts_word, seen_word, seen_parts};
ghost use Rattle.text_grammar.specs.Readings.{next_of, no_more, ends_line, cut_at, or_rule};

use crate::faults::{Fault, TextRule};

/// Where the byte stands first.
fn place_of(byte: u8, bytes: &[u8]) -> Option<usize>
    ensures { result ≡ position (λ b. b == byte) bytes.now }
{
    bytes.iter().position(|b| *b == byte)
}

/// What stands before and behind the first such byte, where there is one.
pub fn cut_at(byte: u8, bytes: &[u8]) -> Option<(&[u8], &[u8])>
    ensures { option_map (λ x. (x.0.now, x.1.now)) result ≡ cut_at byte bytes.now }
{
    let at = place_of(byte, bytes)?;
    Some((&bytes[..at], &bytes[at + 1..]))
}

/// What stands before and behind the first separator of a word; either may be empty. A word without a separator is at
/// fault with the rule.
pub fn parts(separator: u8, rule: TextRule, word: &[u8]) -> Result<(&[u8], &[u8]), Fault>
    ensures { seen_parts result ≡ or_rule rule (cut_at separator word.now) }
{
    match cut_at(separator, word) {
        None => Err(Fault::Refused(rule)),
        Some((front, back)) => Ok((front, back)),
    }
}

/// The line without the spaces before its first word.
fn without_spaces(line: &[u8]) -> &[u8]
    ensures same { words_of result.now ≡ words_of line.now }
    ensures no_space { starts_word result.now }
{
    let mut rest = line;
    'spaces: while let [b' ', behind @ ..] = rest {
        rest = behind;
    }
    rest
}

/// The first word of a line, and what follows it. A line without words is at fault with `BadWord`.
pub fn next_word(line: &[u8]) -> Result<(&[u8], &[u8]), Fault>
    ensures { seen_word result ≡ next_of (words_of line.now) }
{
    let rest = without_spaces(line);
    if rest.is_empty() {
        return Err(Fault::Refused(TextRule::BadWord));
    }
    match cut_at(b' ', rest) {
        None => Ok((rest, &rest[..0])),
        Some((word, behind)) => Ok((word, behind)),
    }
}

/// Whether no word is left.
pub fn is_end(line: &[u8]) -> bool
    ensures { result ≡ ends_line (words_of line.now) }
{
    without_spaces(line).is_empty()
}

/// Nothing, where no word is left. A word more is at fault with `BadWord`.
pub fn no_word(line: &[u8]) -> Result<(), Fault>
    ensures { result ≡ no_more (words_of line.now) }
{
    if is_end(line) {
        Ok(())
    } else {
        Err(Fault::Refused(TextRule::BadWord))
    }
}
