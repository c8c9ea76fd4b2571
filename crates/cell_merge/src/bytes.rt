ghost use Rattle.std.specs.Prelude.{◌≡◌, ℕ, ◌+◌, ◌-◌, ◌<◌, ◌≤◌, List, length, take, drop, replicate, IfSome, IsSome, ◌↔◌};

use std::marker::Model;

/// The value of a live cell: 0 to 64 bytes.
#[derive(Clone, Copy, Debug, PartialEq, Eq)]
pub struct Bytes64 {
    bytes: [u8; 64],
    len: u8,
}

impl Model for Bytes64 {
    ghost use Rattle.std.specs.Prelude.{ℕ, List, ◌++◌, ◌-◌, length, take, replicate};
    ghost use Rattle.cell_merge.specs.Bytes64.{IsPadded, front_padded, length-front};

    ghost Value = { List ℕ };

    ghost view = { λ b. take b.len b.bytes };

    ghost invariant = { λ b. IsPadded b.len b.bytes };

    ghost inverse = { λ l. record { bytes = l ++ replicate (64 - length l) 0; len = length l } };

    ghost inverse_ok = { λ b h i. record {
      bytes = front_padded b.len b.bytes h i;
      len = length-front b.len b.bytes h i;
    } };
}

impl Bytes64 {
    /// The most bytes that a value has.
    pub const MAX: usize = 64;

    /// The value of these bytes; `None` for more than 64 of them, and only then.
    pub fn new(bytes: &[u8]) -> Option<Bytes64>
        ensures fits { IsSome result ↔ (length bytes.now ≤ 64) }
        ensures kept { IfSome result (λ value. value ≡ bytes.now) }
    {
        if bytes.len() > Bytes64::MAX {
            return None;
        }
        let mut filled = [0; 64];
        fill_front(&mut filled, bytes);
        Some(Bytes64 {
            bytes: filled,
            len: bytes.len() as u8,
        })
    }

    /// The bytes, in order.
    pub fn as_slice(&self) -> &[u8]
        ensures bytes { result.now ≡ self.now }
        ensures few { length result.now ≤ 64 }
    {
        &self.bytes[..usize::from(self.len)]
    }
}

/// Copies `from` to the front of an array of zeros.
fn fill_front(to: &mut [u8], from: &[u8])
    requires room { length from.now ≤ length to.old }
    ensures size { length to.new ≡ length to.old }
    ensures front { take (length from.now) to.new ≡ from.now }
    ensures rest { drop (length from.now) to.new ≡ drop (length from.now) to.old }
{
    to[..from.len()].copy_from_slice(from);
}
