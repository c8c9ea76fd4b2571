//! The ring of tokens, and the tablets that divide it evenly.
#![tactic(auto)]

mod laws;
mod ring;
mod token;

pub use laws::{law_children, law_in_one_tablet, law_one_token, law_parent, law_tablet_and_range};
pub use ring::{TabletId, TokenRange, children, parent, range_of, tablet_of};
pub use token::Token;
