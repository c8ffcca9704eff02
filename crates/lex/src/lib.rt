#![tactic(auto)]
// The lexer of inline text: `lex.rt` is `lex.rs` of the source, over a line's bytes and a cursor by
// value.
mod lex;

pub use lex::{Cursor, Delimiter, Kind, Lexed, Sequence, Symbol, Token};
