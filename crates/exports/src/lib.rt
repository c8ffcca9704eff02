#![tactic(auto)]
// What the comparison with the Rust calls, besides the C interface: the leaves, with tokens and
// cursors as numbers, and the reader on two number slices. `exports_c` has them under their C
// names.
ghost use Rattle.std.specs.Prelude.{◌≡◌, ◌+◌, ◌/◌, ◌≤◌, length, drop};
ghost use Rattle.attr.specs.Attributes.{fed};
ghost use Rattle.lex.specs.Lexer.{fresh_of, peek_of, next_of};
ghost use Rattle.scan.specs.Scans.{autolink_of, symbol_of, footnote_of, raw_format_of};
ghost use Rattle.dash.specs.Dashes.{dashes_of, dots_of};
ghost use Rattle.reading.specs.Events.{event_numbers};
ghost use Rattle.reading.specs.Questions.{total, outcome};
ghost use Rattle.reading.specs.Walked.{Accepted, AcceptedHomes};
ghost use Rattle.inline.specs.Lines.{lines_of};
ghost use Rattle.outcome.specs.Outcomes.{rooms_of, outcome_of};
ghost use Rattle.exports.specs.Numbers.{kind_number, mark_of, token_of, cursor_of, state_of, step_of};
ghost use Rattle.exports.specs.Numbers.{validator_number, validator_state, scanned_of, dash_counts, dot_counts};

use attr::{State, Validator};
use dash::{Dashes, Dots};
use lex::{Cursor, Delimiter, Kind, Lexed, Sequence, Symbol, Token};
use reading::Answer;

// Behind the kinds.
pub const NO_TOKEN: u32 = 42;

// The kinds by their numbers: the way back from `kind_number`, since no number is cast to a
// variant.
const KINDS: [Kind; 42] = [
    Kind::Text,
    Kind::Newline,
    Kind::Nbsp,
    Kind::Hardbreak,
    Kind::Escape,
    Kind::Open(Delimiter::Brace),
    Kind::Open(Delimiter::BraceAsterisk),
    Kind::Open(Delimiter::BraceCaret),
    Kind::Open(Delimiter::BraceEqual),
    Kind::Open(Delimiter::BraceHyphen),
    Kind::Open(Delimiter::BracePlus),
    Kind::Open(Delimiter::BraceTilde),
    Kind::Open(Delimiter::BraceUnderscore),
    Kind::Open(Delimiter::Bracket),
    Kind::Open(Delimiter::BraceQuote1),
    Kind::Open(Delimiter::BraceQuote2),
    Kind::Open(Delimiter::Paren),
    Kind::Close(Delimiter::Brace),
    Kind::Close(Delimiter::BraceAsterisk),
    Kind::Close(Delimiter::BraceCaret),
    Kind::Close(Delimiter::BraceEqual),
    Kind::Close(Delimiter::BraceHyphen),
    Kind::Close(Delimiter::BracePlus),
    Kind::Close(Delimiter::BraceTilde),
    Kind::Close(Delimiter::BraceUnderscore),
    Kind::Close(Delimiter::Bracket),
    Kind::Close(Delimiter::BraceQuote1),
    Kind::Close(Delimiter::BraceQuote2),
    Kind::Close(Delimiter::Paren),
    Kind::Sym(Symbol::Asterisk),
    Kind::Sym(Symbol::Caret),
    Kind::Sym(Symbol::ExclaimBracket),
    Kind::Sym(Symbol::Lt),
    Kind::Sym(Symbol::Pipe),
    Kind::Sym(Symbol::Quote1),
    Kind::Sym(Symbol::Quote2),
    Kind::Sym(Symbol::Tilde),
    Kind::Sym(Symbol::Underscore),
    Kind::Sym(Symbol::Colon),
    Kind::Seq(Sequence::Backtick),
    Kind::Seq(Sequence::Hyphen),
    Kind::Seq(Sequence::Period),
];

// The states of the attribute validator by their numbers, likewise.
const STATES: [State; 18] = [
    State::Start,
    State::Whitespace,
    State::CommentFirst,
    State::Comment,
    State::CommentNewline,
    State::ClassFirst,
    State::Class,
    State::IdentifierFirst,
    State::Identifier,
    State::Key,
    State::ValueFirst,
    State::Value,
    State::ValueQuoted,
    State::ValueEscape,
    State::ValueNewline,
    State::ValueContinued,
    State::Done,
    State::Invalid,
];

// A token: the number of its kind, and its length. No token is a kind too, `NO_TOKEN`, for the C
// interface.
#[repr(C)]
#[derive(Clone, Copy)]
pub struct Mark {
    pub kind: u32,
    pub len: usize,
}

// A cursor, with its token as C sees it.
#[repr(C)]
#[derive(Clone, Copy)]
pub struct CursorNumbers {
    pub pos: usize,
    pub escape: bool,
    pub verbatim: bool,
    pub next: Mark,
}

// A token and the cursor behind it.
#[repr(C)]
#[derive(Clone, Copy)]
pub struct Step {
    pub token: Mark,
    pub state: CursorNumbers,
}

// What a scan found: a flag and a length, for the C interface.
#[repr(C)]
#[derive(Clone, Copy)]
pub struct Scanned {
    pub found: bool,
    pub len: usize,
}

// Two counts.
#[repr(C)]
#[derive(Clone, Copy)]
pub struct Counts {
    pub first: usize,
    pub second: usize,
}

// The number of a kind, as C has it: five alone, and then a row of numbers for each of the others,
// by what it is of. No `From`, since both types are of other crates.
fn kind_number(kind: Kind) -> u32
    ensures { result ≡ kind_number kind }
{
    match kind {
        Kind::Text => 0,
        Kind::Newline => 1,
        Kind::Nbsp => 2,
        Kind::Hardbreak => 3,
        Kind::Escape => 4,
        Kind::Open(d) => 5 + d as u32,
        Kind::Close(d) => 17 + d as u32,
        Kind::Sym(s) => 29 + s as u32,
        Kind::Seq(s) => 39 + s as u32,
    }
}

impl From<Option<Token>> for Mark {
    ghost from_gives = { λ next m. m ≡ mark_of next };

    fn from(next: Option<Token>) -> Mark {
        match next {
            Some(t) => Mark {
                kind: kind_number(t.kind),
                len: t.len,
            },
            None => Mark {
                kind: NO_TOKEN,
                len: 0,
            },
        }
    }
}

impl From<Mark> for Option<Token> {
    ghost from_gives = { λ m next. next ≡ token_of m };

    #[tactic(auto, unfolding(crate::specs::Numbers::kinds, crate::specs::Numbers::token_of))]
    fn from(m: Mark) -> Option<Token> {
        let kind = *KINDS.get(m.kind as usize)?;
        Some(Token { kind, len: m.len })
    }
}

impl From<CursorNumbers> for Cursor {
    ghost from_gives = { λ s c. c ≡ cursor_of s };

    fn from(s: CursorNumbers) -> Cursor {
        Cursor {
            pos: s.pos,
            escape: s.escape,
            next: s.next.into(),
            verbatim: s.verbatim,
        }
    }
}

impl From<Cursor> for CursorNumbers {
    ghost from_gives = { λ c s. s ≡ state_of c };

    fn from(c: Cursor) -> CursorNumbers {
        CursorNumbers {
            pos: c.pos,
            escape: c.escape,
            verbatim: c.verbatim,
            next: c.next.into(),
        }
    }
}

impl From<Lexed> for Step {
    ghost from_gives = { λ l s. s ≡ step_of l };

    fn from(l: Lexed) -> Step {
        Step {
            token: l.token.into(),
            state: l.cursor.into(),
        }
    }
}

impl From<Option<usize>> for Scanned {
    ghost from_gives = { λ a s. s ≡ scanned_of a };

    fn from(a: Option<usize>) -> Scanned {
        match a {
            Some(len) => Scanned { found: true, len },
            None => Scanned {
                found: false,
                len: 0,
            },
        }
    }
}

// Each split names its counts, in this order.
impl From<Dashes> for Counts {
    ghost from_gives = { λ d c. c ≡ dash_counts d };

    fn from(d: Dashes) -> Counts {
        Counts {
            first: d.em,
            second: d.en,
        }
    }
}

impl From<Dots> for Counts {
    ghost from_gives = { λ d c. c ≡ dot_counts d };

    fn from(d: Dots) -> Counts {
        Counts {
            first: d.ellipses,
            second: d.rest,
        }
    }
}

// The state of a number. No `From`, since both types are of other crates.
#[tactic(auto, unfolding(crate::specs::Numbers::states, crate::specs::Numbers::validator_state))]
fn validator_state(n: u32) -> State
    ensures { result ≡ validator_state n }
{
    STATES.get(n as usize).copied().unwrap_or(State::Invalid)
}

pub fn mivurakol_cursor(pos: usize, verbatim: bool) -> CursorNumbers
    ensures { result ≡ state_of (fresh_of pos verbatim) }
{
    Cursor::new(pos, verbatim).into()
}

pub fn mivurakol_peek(src: &[u8], s: CursorNumbers) -> Step
    ensures { result ≡ step_of (peek_of src.now (cursor_of s)) }
{
    lexer::peek_token(src, s.into()).into()
}

pub fn mivurakol_next(src: &[u8], s: CursorNumbers) -> Step
    ensures { result ≡ step_of (next_of src.now (cursor_of s)) }
{
    lexer::next_token(src, s.into()).into()
}

// The scans ahead, from a place on, which C lends beside the bytes.
pub fn mivurakol_autolink(src: &[u8], from: usize) -> Scanned
    ensures { result ≡ scanned_of (autolink_of (drop from src.now)) }
{
    scan::ahead_autolink(src, from).into()
}

pub fn mivurakol_symbol(src: &[u8], from: usize) -> Scanned
    ensures { result ≡ scanned_of (symbol_of (drop from src.now)) }
{
    scan::ahead_symbol(src, from).into()
}

pub fn mivurakol_footnote(src: &[u8], from: usize) -> Scanned
    ensures { result ≡ scanned_of (footnote_of (drop from src.now)) }
{
    scan::ahead_footnote(src, from).into()
}

pub fn mivurakol_raw_format(src: &[u8], from: usize) -> Scanned
    ensures { result ≡ scanned_of (raw_format_of (drop from src.now)) }
{
    scan::ahead_raw_format(src, from).into()
}

// The attribute validator, from a state on.
pub fn mivurakol_validate(bytes: &[u8], state: u32) -> u32
    ensures { result ≡ validator_number (fed bytes.now (validator_state state)) }
{
    let before = Validator {
        state: validator_state(state),
    };
    before.parse(bytes).state as u32
}

pub fn mivurakol_hyphens(len: usize) -> Counts
    ensures { result ≡ dash_counts (dashes_of len) }
{
    dash::split_hyphens(len).into()
}

pub fn mivurakol_periods(len: usize) -> Counts
    ensures { result ≡ dot_counts (dots_of len) }
{
    dash::split_periods(len).into()
}

// `reader::read`.
pub fn mivurakol_read_numbers(
    text: &[u8],
    starts: &[usize],
    ends: &[usize],
    reading: u32,
    events: &mut [u32],
    queue: &mut [u32],
    openers: &mut [u32],
    labels: &mut [u8],
) -> Answer
    ensures as_defined { outcome_of result events.new queue.new openers.new labels.new ≡ outcome text.now
        (lines_of starts.now ends.now) reading (rooms_of events.old queue.old openers.old labels.old) }
    ensures accepted { result.code ≡ 0 → Accepted text.now (lines_of starts.now ends.now) reading (rooms_of events.old queue.old openers.old labels.old) (outcome_of result events.new queue.new openers.new labels.new) }
    ensures homed { result.code ≡ 0 → AcceptedHomes text.now (lines_of starts.now ends.now) reading (rooms_of events.old queue.old openers.old labels.old) (outcome_of result events.new queue.new openers.new labels.new) }
    ensures events_suffice { total (lines_of starts.now ends.now) + 1 ≤ length events.old / event_numbers → result.code ≡ 9 → ⊥ }
{
    reader::read(text, starts, ends, reading, events, queue, openers, labels)
}
