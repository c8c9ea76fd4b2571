ghost use Rattle.std.specs.Prelude.{◌≡◌, ◌↔◌, IfSome, IsNone};
ghost use Rattle.token_ring.specs.Ring.{IsToken, least_number};

/// A token, a point of the ring: any signed 64-bit number but the least, -2^63.
/// Source: ScyllaDB's tokens.
#[derive(Clone, Copy, Debug, PartialEq, Eq, PartialOrd, Ord)]
pub struct Token {
    value: i64,
    pub ghost is_token: { IsToken value },
}

impl Token {
    /// The token of this number; `None` exactly at -2^63.
    pub fn new(value: i64) -> Option<Token>
        ensures least { IsNone result ↔ value ≡ least_number }
        ensures token { IfSome result (λ token. token.value ≡ value) }
    {
        if value == i64::MIN {
            None
        } else {
            Some(Token { value })
        }
    }

    /// The number of this token.
    pub fn get(self) -> i64
        ensures { result ≡ self.value }
    {
        self.value
    }
}
