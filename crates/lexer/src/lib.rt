#![tactic(auto)]
// The lexer of `lex.rs` as a struct: the line's bytes and the place in them.
ghost use Rattle.std.specs.Prelude.{◌≡◌, false};
ghost use Rattle.lex.specs.Lexer.{fresh_of, next_of, peek_of};

use lex::{Cursor, Lexed};

#[derive(Clone, Copy)]
pub struct Lexer<'s> {
    pub src: &'s [u8],
    pub cursor: Cursor,
}

impl<'s> Lexer<'s> {
    // Begins the line, with no escape pending.
    pub fn new(src: &'s [u8]) -> Lexer<'s>
        ensures { (result.src ≡ src.entry) × (result.cursor ≡ fresh_of 0 false) }
    {
        Lexer {
            src,
            cursor: Cursor::new(0, false),
        }
    }

    // The same line at another place.
    pub fn at(self, cursor: Cursor) -> Lexer<'s>
        ensures { (result.src ≡ self.entry.src) × (result.cursor ≡ cursor) }
    {
        Lexer {
            src: self.src,
            cursor,
        }
    }

    // The next token, and the cursor, which stays before it and holds it.
    pub fn peek(self) -> Lexed
        ensures { result ≡ peek_of self.entry.src.now self.entry.cursor }
    {
        self.cursor.peek(self.src)
    }

    // The next token and the cursor after it.
    pub fn next(self) -> Lexed
        ensures { result ≡ next_of self.entry.src.now self.entry.cursor }
    {
        self.cursor.next(self.src)
    }
}

// The token at a cursor of a line: whoever reads or shows tokens calls these.
pub fn next_token(src: &[u8], c: Cursor) -> Lexed
    ensures { result ≡ next_of src.now c }
{
    Lexer::new(src).at(c).next()
}

pub fn peek_token(src: &[u8], c: Cursor) -> Lexed
    ensures { result ≡ peek_of src.now c }
{
    Lexer::new(src).at(c).peek()
}
