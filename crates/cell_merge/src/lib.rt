//! Cells, their order, and the greater one of two.
//!
//! The order is ScyllaDB's cell order without expiry times: every crate above compares cells by it.
#![tactic(auto)]

mod bytes;
mod cell;

pub use bytes::Bytes64;
pub use cell::{Body, Cell, merge, order_laws};
