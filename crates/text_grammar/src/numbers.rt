// Numbers of decimal digits, and bytes of hexadecimal ones.
ghost use Rattle.std.specs.Prelude.{◌≡◌, ◌<◌, ◌^◌, IfSome};
ghost use Rattle.text_grammar.specs.Readings.{digit_of, unsigned_of, or_rule, hex_digit_of};

use crate::faults::{Fault, TextRule};

/// A decimal digit.
fn digit_of(byte: u8) -> Option<u8>
    ensures { result ≡ digit_of byte }
{
    match byte {
        b'0'..=b'9' => Some(byte - b'0'),
        _ => None,
    }
}

/// The number that a word of 1 to 20 digits spells. Zeros may lead.
#[tactic(auto, unfolding(crate::specs::Readings::unsigned_of))]
pub fn unsigned_of(word: &[u8]) -> Option<u128>
    ensures { result ≡ unsigned_of word.now }
{
    if word.is_empty() || word.len() > 20 {
        return None;
    }
    let mut number: u128 = 0;
    for byte in word {
        let digit = digit_of(*byte)?;
        number = number * 10 + u128::from(digit);
    }
    Some(number)
}

/// The number that a word of 1 to 20 digits spells. Any other word is at fault with the rule.
pub fn digits(rule: TextRule, word: &[u8]) -> Result<u128, Fault>
    ensures { result ≡ or_rule rule (unsigned_of word.now) }
{
    match unsigned_of(word) {
        None => Err(Fault::Refused(rule)),
        Some(number) => Ok(number),
    }
}

/// A hexadecimal digit of either case.
pub fn hex_digit_of(byte: u8) -> Option<u8>
    ensures digit { result ≡ hex_digit_of byte }
    ensures low { IfSome result (λ digit. digit < 16) }
{
    match byte {
        b'0'..=b'9' => Some(byte - b'0'),
        b'a'..=b'f' => Some(byte - 87),
        b'A'..=b'F' => Some(byte - 55),
        _ => None,
    }
}
