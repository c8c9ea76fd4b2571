//! Numbers of 64 bits.
ghost use Rattle.std.specs.Prelude.{◌≡◌};
ghost use Rattle.command_words.specs.Words.{number_of};

use text_grammar::unsigned_of;

/// A number of 1 to 20 digits that 64 bits hold. Zeros may lead.
#[tactic(auto, unfolding(crate::specs::Words::number_of))]
pub(crate) fn number_of(word: &[u8]) -> Option<u64>
    ensures { result ≡ number_of word.now }
{
    let number = unsigned_of(word)?;
    if number < 1 << 64 {
        Some(number as u64)
    } else {
        None
    }
}
