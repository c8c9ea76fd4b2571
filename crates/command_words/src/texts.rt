//! Words as text.
ghost use Rattle.std.specs.Prelude.{◌≡◌, IfOk, map, option_map};
ghost use Rattle.command_words.specs.Program.{plain_text, plain_texts};

use base_ids::{NoMemory, Text};
use std::alloc::Global;
use std::str::from_utf8;

/// The word as text. `None` where it is no UTF-8, and for `--`, behind which words are read in another way.
fn plain_text(word: &[u8]) -> Option<&str>
    ensures { option_map (λ text. text.now) result ≡ plain_text word.now }
{
    match from_utf8(word) {
        Ok("--") => None,
        Ok(text) => Some(text),
        Err(_) => None,
    }
}

/// The words as texts. `None` where one of them is none.
pub(crate) fn plain_texts<'a>(
    alloc: Global,
    words: &'a [Text],
) -> Result<Option<Vec<&'a str>>, NoMemory>
    ensures { IfOk result (λ texts.
        option_map (λ list. map (λ text. text.now) list.items) texts ≡ plain_texts words.now) }
{
    let mut texts = Vec::new(alloc);
    for word in words {
        let Some(text) = plain_text(word.as_slice()) else {
            return Ok(None);
        };
        texts.push(text)?;
    }
    Ok(Some(texts))
}
