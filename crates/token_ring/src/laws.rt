//! Laws of the ring. Each is a call that does nothing and ensures the law.
ghost use Rattle.std.specs.Prelude.{◌≡◌, ◌↔◌, ◌+◌, ◌/◌, ◌^◌, ◌<◌, ◌≤◌, ℕ};
ghost use Rattle.token_ring.specs.Ring.{tablet_at, IsBetween, HasChildren};
ghost use Rattle.token_ring.specs.declared.token.Token.{Token};

/// Tokens of one number are one token.
pub fn law_one_token()
    ensures { (a b : Token) → a.value ≡ b.value → a ≡ b }
{}

/// Each token lies in one of the `2^log2` tablets.
pub fn law_in_one_tablet()
    ensures { (log2 : ℕ) (token : Token) → log2 ≤ 10 → tablet_at log2 token.value < 2 ^ log2 }
{}

/// A token lies from the first to the last offset of a tablet exactly where that tablet is its tablet.
pub fn law_tablet_and_range()
    ensures { (log2 tablet : ℕ) (token : Token) → log2 ≤ 10 → tablet < 2 ^ log2 →
        IsBetween log2 tablet token.value ↔ (tablet_at log2 token.value ≡ tablet) }
{}

/// The offsets of a tablet's two children follow one another and together are its offsets.
pub fn law_children()
    ensures { (log2 tablet : ℕ) → log2 < 10 → tablet < 2 ^ log2 → HasChildren log2 tablet }
{}

/// With twice as many tablets, a token's tablet is a child of the one that it had.
pub fn law_parent()
    ensures { (log2 : ℕ) (token : Token) → log2 < 10 →
        tablet_at (log2 + 1) token.value / 2 ≡ tablet_at log2 token.value }
{}
