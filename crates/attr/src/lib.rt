#![tactic(auto)]
// Attribute blocks, beside `attr.rs` of the source: whether one stands at a brace. Nothing is read
// of it.
mod attr;

pub use attr::{State, Validator};
