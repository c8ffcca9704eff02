// The lexer of `lex.rs`, over a line's bytes and a cursor by value.
ghost use Rattle.std.specs.Prelude.{◌≡◌, ◌<◌, length, get_or, drop};
ghost use Rattle.lex.specs.Lexer.{token as lex_token, ch_of, start_of, begun_by, begun_of, escaped_of, lexed, is_text, is_escape, pending_of, joined_of};
ghost use Rattle.lex.specs.Lexer.{holding_of, fresh_of, found_by, taken_of, next_of, peek_of};

use classes::Set;

#[derive(Clone, Copy)]
pub struct Token {
    pub kind: Kind,
    pub len: usize,
}

#[derive(Clone, Copy, Debug)]
pub enum Kind {
    Text,
    Newline,
    Nbsp,
    Hardbreak,
    Escape,
    Open(Delimiter),
    Close(Delimiter),
    Sym(Symbol),
    Seq(Sequence),
}

#[derive(Clone, Copy, Debug)]
pub enum Delimiter {
    Brace,
    BraceAsterisk,
    BraceCaret,
    BraceEqual,
    BraceHyphen,
    BracePlus,
    BraceTilde,
    BraceUnderscore,
    Bracket,
    BraceQuote1,
    BraceQuote2,
    Paren,
}

#[derive(Clone, Copy, Debug)]
pub enum Symbol {
    Asterisk,
    Caret,
    ExclaimBracket,
    Lt,
    Pipe,
    Quote1,
    Quote2,
    Tilde,
    Underscore,
    Colon,
}

#[derive(Clone, Copy, Debug)]
pub enum Sequence {
    Backtick,
    Hyphen,
    Period,
}

impl Sequence {
    fn ch(self) -> u8
        ensures { result ≡ ch_of self }
    {
        match self {
            Sequence::Backtick => b'`',
            Sequence::Period => b'.',
            Sequence::Hyphen => b'-',
        }
    }
}

// The state of a lexer, without its line.
#[derive(Clone, Copy)]
pub struct Cursor {
    // Where the next token begins.
    pub pos: usize,
    // The byte behind the held token is escaped; with none held, the byte at `pos`.
    pub escape: bool,
    // A token that was peeked at, or that ended a Text: it begins at `pos`.
    pub next: Option<Token>,
    // Escapes are ignored.
    pub verbatim: bool,
}

// A token, and the cursor after it.
#[derive(Clone, Copy)]
pub struct Lexed {
    pub token: Option<Token>,
    pub cursor: Cursor,
}

// What a byte begins. The definition has the two steps: a table of bytes (`start_of`), and what
// each begins (`begun`).
#[derive(Clone, Copy)]
enum Start {
    Text,
    Sole(Kind),
    Closing(Kind, Delimiter),
    Brace,
    Backslash,
    Hyphen,
    Exclaim,
    Run(Sequence),
}

// The end of a joined Text, and the token behind it.
#[derive(Clone, Copy)]
struct Joined {
    end: usize,
    next: Option<Token>,
}

impl Cursor {
    // A fresh cursor at a place.
    pub fn new(pos: usize, verbatim: bool) -> Cursor
        ensures { result ≡ fresh_of pos verbatim }
    {
        Cursor {
            pos,
            escape: false,
            next: None,
            verbatim,
        }
    }

    // The next token, which is held.
    #[tactic(auto, unfolding(crate::specs::Lexer::peek_by))]
    pub fn peek(self, src: &[u8]) -> Lexed
        ensures { result ≡ peek_of src.now self }
    {
        match self.next {
            Some(_) => Lexed {
                token: self.next,
                cursor: self,
            },
            None => {
                let found = Cursor::token(src, self.pos, self.escape);
                Lexed {
                    token: found,
                    cursor: self.holding(self.pos, found),
                }
            }
        }
    }

    // The next token: the held one as it is, or a lexed one.
    #[tactic(auto, unfolding(crate::specs::Lexer::next_by))]
    pub fn next(self, src: &[u8]) -> Lexed
        ensures { result ≡ next_of src.now self }
    {
        match self.next {
            Some(t) => self.take(src, t),
            None => self.next_token(src),
        }
    }

    // The cursor behind the next token, for who has peeked at it. It has the match of `next` and no
    // call of it: `next` is taken in one place, and so laid into the parser's loop
    // (docs/DECISIONS.md, "The parser").
    #[tactic(auto, unfolding(crate::specs::Lexer::next_by))]
    pub fn skip(self, src: &[u8]) -> Cursor
        ensures { result ≡ (next_of src.now self).cursor }
    {
        match self.next {
            Some(t) => self.take(src, t).cursor,
            None => self.next_token(src).cursor,
        }
    }

    // The held token is used up. One that does not lie within the line is none.
    #[tactic(auto, unfolding(crate::specs::Lexer::taken_of))]
    fn take(self, src: &[u8], t: Token) -> Lexed
        ensures { result ≡ taken_of src.now self t }
    {
        if (src.len() < self.pos) || (src.len() - self.pos < t.len) {
            return Lexed {
                token: None,
                cursor: self,
            };
        }
        Lexed {
            token: Some(t),
            cursor: Cursor {
                pos: self.pos + t.len,
                next: None,
                ..self
            },
        }
    }

    // A lexed token. Text is joined, and the token behind it is held.
    #[tactic(auto, using(crate::proofs::Walk::found_sized, crate::proofs::Walk::found_joined), unfolding(crate::specs::Lexer::found_by, crate::specs::Lexer::joined_of))]
    fn next_token(self, src: &[u8]) -> Lexed
        ensures { result ≡ found_by self (drop self.pos src.now) (lexed self.escape (drop self.pos src.now)) }
    {
        let current = Cursor::token(src, self.pos, self.escape);
        let Some(t) = current else {
            return Lexed {
                token: current,
                cursor: self.holding(self.pos, current),
            };
        };
        let end = self.pos + t.len;
        if !is_text(t) {
            return Lexed {
                token: current,
                cursor: Cursor {
                    pos: end,
                    escape: pending(current, self.verbatim),
                    next: None,
                    verbatim: self.verbatim,
                },
            };
        }
        let j = join(src, end);
        let text = Token {
            kind: Kind::Text,
            len: j.end - self.pos,
        };
        Lexed {
            token: Some(text),
            cursor: self.holding(j.end, j.next),
        }
    }

    // The cursor at a place, with the token there held.
    fn holding(self, pos: usize, next: Option<Token>) -> Cursor
        ensures { result ≡ holding_of self pos next }
    {
        Cursor {
            pos,
            escape: pending(next, self.verbatim),
            next,
            verbatim: self.verbatim,
        }
    }

    // The token at a place.
    #[tactic(auto, unfolding(crate::specs::Lexer::lexed))]
    fn token(src: &[u8], pos: usize, escape: bool) -> Option<Token>
        ensures { result ≡ lexed escape (drop pos src.now) }
    {
        if src.len() <= pos {
            return None;
        }
        let s = &src[pos..];
        Some(if escape { escaped(s) } else { begun(s) })
    }
}

fn is_text(t: Token) -> bool
    ensures { result ≡ is_text t.kind }
{
    matches!(t.kind, Kind::Text)
}

// A backslash escapes the byte behind it, but not in verbatim.
fn pending(next: Option<Token>, verbatim: bool) -> bool
    ensures { result ≡ pending_of next verbatim }
{
    match next {
        Some(t) => is_escape(t) & !verbatim,
        None => false,
    }
}

fn is_escape(t: Token) -> bool
    ensures { result ≡ is_escape t.kind }
{
    matches!(t.kind, Kind::Escape)
}

// The Text tokens from a place on. Goes by the token that it finds, and hands back the first that
// is no Text.
#[tactic(auto, using(crate::proofs::Texts::joined_end, crate::proofs::Texts::joined_other, crate::proofs::Texts::joined_more))]
fn join(src: &[u8], from: usize) -> Joined
    ensures { result ≡ joined_of src.now from }
{
    let mut end = from;
    loop {
        let next = Cursor::token(src, end, false);
        let Some(t) = next else {
            return Joined { end, next };
        };
        if !is_text(t) {
            return Joined { end, next };
        }
        end += t.len;
    }
}

// The byte at a place, 0 past the end: the source's `peek_byte_n`, of a slice and a place.
fn peek_byte_n(s: &[u8], n: usize) -> u8
    ensures { result ≡ get_or s.now n 0 }
{
    if n < s.len() { s[n] } else { 0 }
}

// The token at a byte that a backslash escapes.
#[tactic(auto, unfolding(crate::specs::Lexer::escaped_of))]
fn escaped(s: &[u8]) -> Token
    requires { 0 < length s.now }
    ensures { result ≡ escaped_of s.now }
{
    let b = s[0];
    if b == b'\n' {
        return Token {
            kind: Kind::Hardbreak,
            len: 1,
        };
    }
    let n = classes::eat_while(s, Set::SpaceTab);
    if (0 < n) & (peek_byte_n(s, n) == b'\n') {
        return Token {
            kind: Kind::Hardbreak,
            len: n + 1,
        };
    }
    if b == b' ' {
        return Token {
            kind: Kind::Nbsp,
            len: 1,
        };
    }
    Token {
        kind: Kind::Text,
        len: 1,
    }
}

// The table of bytes: what each begins.
#[tactic(auto, unfolding(crate::specs::Lexer::start_of, crate::specs::Lexer::starts, crate::specs::Lexer::lookup))]
fn start_of(b: u8) -> Start
    ensures { result ≡ start_of b }
{
    match b {
        b'\\' => Start::Backslash,
        b'[' => Start::Sole(Kind::Open(Delimiter::Bracket)),
        b']' => Start::Sole(Kind::Close(Delimiter::Bracket)),
        b'(' => Start::Sole(Kind::Open(Delimiter::Paren)),
        b')' => Start::Sole(Kind::Close(Delimiter::Paren)),
        b'{' => Start::Brace,
        b'}' => Start::Sole(Kind::Close(Delimiter::Brace)),
        b'*' => Start::Closing(Kind::Sym(Symbol::Asterisk), Delimiter::BraceAsterisk),
        b'^' => Start::Closing(Kind::Sym(Symbol::Caret), Delimiter::BraceCaret),
        b'=' => Start::Closing(Kind::Text, Delimiter::BraceEqual),
        b'+' => Start::Closing(Kind::Text, Delimiter::BracePlus),
        b'~' => Start::Closing(Kind::Sym(Symbol::Tilde), Delimiter::BraceTilde),
        b'_' => Start::Closing(Kind::Sym(Symbol::Underscore), Delimiter::BraceUnderscore),
        b'\'' => Start::Closing(Kind::Sym(Symbol::Quote1), Delimiter::BraceQuote1),
        b'"' => Start::Closing(Kind::Sym(Symbol::Quote2), Delimiter::BraceQuote2),
        b'-' => Start::Hyphen,
        b'!' => Start::Exclaim,
        b'<' => Start::Sole(Kind::Sym(Symbol::Lt)),
        b'|' => Start::Sole(Kind::Sym(Symbol::Pipe)),
        b':' => Start::Sole(Kind::Sym(Symbol::Colon)),
        b'`' => Start::Run(Sequence::Backtick),
        b'.' => Start::Run(Sequence::Period),
        b'\n' => Start::Sole(Kind::Newline),
        _ => Start::Text,
    }
}

// The token at a byte that is not escaped: what each start is, row by row the definition's table.
#[tactic(auto, unfolding(crate::specs::Lexer::begun_by))]
fn begun(s: &[u8]) -> Token
    requires { 0 < length s.now }
    ensures { result ≡ begun_of s.now }
{
    match start_of(s[0]) {
        Start::Text => Token {
            kind: Kind::Text,
            len: classes::eat_plain(s),
        },
        Start::Sole(kind) => Token { kind, len: 1 },
        Start::Closing(kind, d) => maybe_eat_close_brace(s, kind, d),
        Start::Brace => brace(s),
        Start::Backslash => backslash(s),
        Start::Hyphen => hyphens(s),
        Start::Exclaim => exclaim(s),
        Start::Run(q) => Token {
            kind: Kind::Seq(q),
            len: classes::eat_seq(s, q.ch()),
        },
    }
}

// A kind of one byte, or with `}` behind it a closing delimiter.
#[tactic(auto, unfolding(crate::specs::Lexer::begun_by))]
fn maybe_eat_close_brace(s: &[u8], kind: Kind, d: Delimiter) -> Token
    ensures { result ≡ begun_by (Start.Closing kind d) s.now }
{
    if peek_byte_n(s, 1) == b'}' {
        Token {
            kind: Kind::Close(d),
            len: 2,
        }
    } else {
        Token { kind, len: 1 }
    }
}

// A backslash escapes a blank or punctuation, and is text before anything else.
#[tactic(auto, unfolding(crate::specs::Lexer::begun_by))]
fn backslash(s: &[u8]) -> Token
    ensures { result ≡ begun_by Start.Backslash s.now }
{
    let b = peek_byte_n(s, 1);
    if classes::is_blank(b) | classes::is_punctuation(b) {
        Token {
            kind: Kind::Escape,
            len: 1,
        }
    } else {
        Token {
            kind: Kind::Text,
            len: 1,
        }
    }
}

// `![` opens an image; `!` alone is text.
#[tactic(auto, unfolding(crate::specs::Lexer::begun_by))]
fn exclaim(s: &[u8]) -> Token
    ensures { result ≡ begun_by Start.Exclaim s.now }
{
    if peek_byte_n(s, 1) == b'[' {
        Token {
            kind: Kind::Sym(Symbol::ExclaimBracket),
            len: 2,
        }
    } else {
        Token {
            kind: Kind::Text,
            len: 1,
        }
    }
}

// `{` with a mark behind it is an explicit opening delimiter: rows of the source's `match`.
#[tactic(auto, unfolding(crate::specs::Lexer::begun_by, crate::specs::Lexer::braces, crate::specs::Lexer::lookup))]
fn brace(s: &[u8]) -> Token
    ensures { result ≡ begun_by Start.Brace s.now }
{
    match peek_byte_n(s, 1) {
        b'*' => explicit(Delimiter::BraceAsterisk),
        b'^' => explicit(Delimiter::BraceCaret),
        b'=' => explicit(Delimiter::BraceEqual),
        b'-' => explicit(Delimiter::BraceHyphen),
        b'+' => explicit(Delimiter::BracePlus),
        b'~' => explicit(Delimiter::BraceTilde),
        b'_' => explicit(Delimiter::BraceUnderscore),
        b'\'' => explicit(Delimiter::BraceQuote1),
        b'"' => explicit(Delimiter::BraceQuote2),
        _ => Token {
            kind: Kind::Open(Delimiter::Brace),
            len: 1,
        },
    }
}

fn explicit(d: Delimiter) -> Token
    ensures { result ≡ lex_token (Kind.Open d) 2 }
{
    Token {
        kind: Kind::Open(d),
        len: 2,
    }
}

// A run of hyphens stops before a hyphen with `}` behind it; `-}` closes.
#[tactic(auto, unfolding(crate::specs::Lexer::begun_by, crate::specs::Lexer::hyphens_of))]
fn hyphens(s: &[u8]) -> Token
    ensures { result ≡ begun_by Start.Hyphen s.now }
{
    let n = classes::eat_seq(s, b'-');
    if peek_byte_n(s, n) != b'}' {
        return Token {
            kind: Kind::Seq(Sequence::Hyphen),
            len: n,
        };
    }
    if n < 2 {
        return Token {
            kind: Kind::Close(Delimiter::BraceHyphen),
            len: 2,
        };
    }
    Token {
        kind: Kind::Seq(Sequence::Hyphen),
        len: n - 1,
    }
}
