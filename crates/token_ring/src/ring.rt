ghost use Rattle.std.specs.Prelude.{◌≡◌, ◌↔◌, ◌+◌, ◌*◌, ◌/◌, ◌^◌, ◌<◌, ◌≤◌};
ghost use Rattle.token_ring.specs.Ring.{offset, tablet_at, first_offset, last_offset, width};
ghost use Rattle.token_ring.specs.Range.{IsIn, range_at};
ghost use Rattle.token_ring.specs.declared.token.Token.{Token};

use crate::token::Token;

/// A tablet of a table: its place among the table's tablets, from 0.
#[derive(Clone, Copy, Debug, PartialEq, Eq, PartialOrd, Ord)]
pub struct TabletId(pub u32);

/// The tokens from `first` to `last`, both included.
#[derive(Clone, Copy, Debug, PartialEq, Eq)]
pub struct TokenRange {
    /// The least token of the range.
    pub first: Token,
    /// The greatest token of the range.
    pub last: Token,
}

/// The tablet of a token where the ring is divided into `2^log2` tablets.
/// Source: how ScyllaDB's tablet map finds a tablet, with powers of two.
pub fn tablet_of(log2: u8, token: Token) -> TabletId
    requires { log2 ≤ 10 }
    ensures tablet { result.0 ≡ tablet_at log2 token.value }
    ensures below { result.0 < 2 ^ log2 }
{
    TabletId((u128::from(offset_of(token)) >> (64 - log2)) as u32)
}

/// All tokens of a tablet where the ring is divided into `2^log2` tablets.
pub fn range_of(log2: u8, tablet: TabletId) -> TokenRange
    requires divided { log2 ≤ 10 }
    requires within { tablet.0 < 2 ^ log2 }
    ensures range { result ≡ range_at log2 tablet.0 }
    ensures first { offset result.first.value ≡ first_offset log2 tablet.0 }
    ensures last { offset result.last.value ≡ last_offset log2 tablet.0 }
    ensures tokens { (token : Token) → IsIn result token ↔ (tablet_at log2 token.value ≡ tablet.0) }
{
    let start = start_of(log2, tablet.0);
    let end = start_of(log2, tablet.0 + 1);
    TokenRange {
        first: token_at(start.max(1) as u64),
        last: token_at((end - 1) as u64),
    }
}

/// The two tablets that a tablet is split into.
pub fn children(tablet: TabletId) -> (TabletId, TabletId)
    requires { tablet.0 < 1024 }
    ensures left { result.0.0 ≡ 2 * tablet.0 }
    ensures right { result.1.0 ≡ 2 * tablet.0 + 1 }
{
    (TabletId(2 * tablet.0), TabletId(2 * tablet.0 + 1))
}

/// The tablet that a tablet is merged into.
pub fn parent(tablet: TabletId) -> TabletId
    ensures { result.0 ≡ tablet.0 / 2 }
{
    TabletId(tablet.0 / 2)
}

/// How many offsets of the ring the first `tablets` of `2^log2` tablets have.
fn start_of(log2: u8, tablets: u32) -> u128
    requires divided { log2 ≤ 10 }
    requires within { tablets ≤ 2 ^ log2 }
    ensures offsets { result ≡ tablets * width log2 }
    ensures below { result ≤ 2 ^ 64 }
{
    u128::from(tablets) << (64 - log2)
}

/// The offset of a token from the start of the ring.
fn offset_of(token: Token) -> u64
    ensures { result ≡ offset token.value }
{
    token.get().abs_diff(i64::MIN)
}

/// The token at an offset.
fn token_at(at: u64) -> Token
    requires { 0 < at }
    ensures { offset result.value ≡ at }
{
    let Some(token) = Token::new((i128::from(at) - (1 << 63)) as i64) else {
        unreachable!()
    };
    token
}
