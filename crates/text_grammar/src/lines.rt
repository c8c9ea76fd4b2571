// The lines of a text, none of which is copied.
ghost use Rattle.std.specs.Prelude.{◌≡◌, ◌<◌, ◌∷◌, length, nat_lt};
ghost use Rattle.std.specs.List.{list_all};
ghost use Rattle.text_grammar.specs.Cuts.{lines_of, without_return, words_of};
ghost use Rattle.text_grammar.specs.Lines.{is_comment};
ghost use Rattle.text_grammar.specs.Folds.{is_passed_over};

use crate::faults::{Fault, TextRule};
use crate::words::{cut_at, next_word};

/// The line without a CR at its end.
fn without_return(line: &[u8]) -> &[u8]
    ensures { result.now ≡ without_return line.now }
{
    match line.strip_suffix(b"\r".as_slice()) {
        None => line,
        Some(front) => front,
    }
}

/// The first line of a text, and what follows it.
pub fn first_line(bytes: &[u8]) -> (&[u8], &[u8])
    requires { 0 < length bytes.now }
    ensures { result.0.now ∷ lines_of result.1.now ≡ lines_of bytes.now }
{
    match cut_at(b'\n', bytes) {
        None => (bytes, &bytes[..0]),
        Some((line, behind)) => (without_return(line), behind),
    }
}

/// Whether a word begins a comment.
fn is_comment(word: &[u8]) -> bool
    ensures { result ≡ is_comment word.now }
{
    match word {
        [] => false,
        [first, _behind @ ..] => *first == b'#',
    }
}

/// Whether each byte of a line is below 128.
fn are_ascii(line: &[u8]) -> bool
    ensures { result ≡ list_all (λ b. nat_lt b 128) line.now }
{
    line.iter().all(|byte| *byte < 128)
}

/// Whether a line is passed over: one without words, and a comment. A comment with another byte than ASCII is at fault
/// with `BadWord`.
#[tactic(auto, using(crate::proofs::CutLemmas::ascii_line))]
pub fn passed(line: &[u8]) -> Result<bool, Fault>
    ensures { result ≡ is_passed_over (words_of line.now) }
{
    match next_word(line) {
        Err(_) => Ok(true),
        Ok((word, _)) => {
            if !is_comment(word) {
                Ok(false)
            } else if are_ascii(line) {
                Ok(true)
            } else {
                Err(Fault::Refused(TextRule::BadWord))
            }
        }
    }
}
