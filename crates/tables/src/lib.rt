#![tactic(auto)]
// What tokens and openers are to the parser: flat matches, row by row the definition's tables, and
// questions that are asked of them. Kinds of events and containers are the numbers that `reading`
// names.
ghost use Rattle.std.specs.Prelude.{◌≡◌};
ghost use Rattle.reading.specs.Containers;
ghost use Rattle.reading.specs.Events.{str};
ghost use Rattle.reading.specs.Tokens;
ghost use Rattle.reading.specs.Tokens.{closed_by, two_way, may_be_empty, is_single, closing_of, link_sort};
ghost use Rattle.reading.specs.Tokens.{role_of, opens_a, is_run, is_format, is_caret};
ghost use Rattle.tables.specs.Tables.{other_of, pair_of, link_of};

use lex::{Delimiter, Kind, Sequence, Symbol};
use reading::{Closer, DelimEventKind, Marks, Pair, Role, Sort, Target, container, kind};

// The mark that closes an opener.
#[tactic(auto, unfolding(reading::specs::Tokens::closed_by))]
pub fn closed_by(s: Sort) -> Closer
    ensures { result ≡ closed_by s }
{
    match s {
        Sort::Span => Closer::Bracket,
        Sort::Image => Closer::Bracket,
        Sort::Strong => Closer::Asterisk,
        Sort::BraceStrong => Closer::BraceAsterisk,
        Sort::Emphasis => Closer::Underscore,
        Sort::BraceEmphasis => Closer::BraceUnderscore,
        Sort::Superscript => Closer::Caret,
        Sort::BraceSuperscript => Closer::BraceCaret,
        Sort::Subscript => Closer::Tilde,
        Sort::BraceSubscript => Closer::BraceTilde,
        Sort::Mark => Closer::BraceEqual,
        Sort::Delete => Closer::BraceHyphen,
        Sort::Insert => Closer::BracePlus,
        Sort::SingleQuoted => Closer::Quote1,
        Sort::DoubleQuoted => Closer::Quote2,
        Sort::ReferenceLink => Closer::Bracket,
        Sort::ReferenceImage => Closer::Bracket,
        Sort::InlineLink => Closer::Paren,
        Sort::InlineImage => Closer::Paren,
    }
}

// Whether an opener's mark can open and close.
#[tactic(auto, unfolding(reading::specs::Tokens::both_ways))]
pub fn two_way(s: Sort) -> bool
    ensures { result ≡ two_way s }
{
    matches!(
        closed_by(s),
        Closer::Asterisk
            | Closer::Underscore
            | Closer::Caret
            | Closer::Tilde
            | Closer::Quote1
            | Closer::Quote2
    )
}

// Spans and links.
#[tactic(auto, unfolding(reading::specs::Closers::number))]
pub fn may_be_empty(s: Sort) -> bool
    ensures { result ≡ may_be_empty s }
{
    matches!(closed_by(s), Closer::Bracket | Closer::Paren)
}

// A single quote.
#[tactic(auto, unfolding(reading::specs::Closers::number))]
pub fn is_single(s: Sort) -> bool
    ensures { result ≡ is_single s }
{
    closed_by(s) == Closer::Quote1
}

// The kind of the event of an opener that is not closed.
#[tactic(auto, unfolding(reading::specs::Tokens::unclosed, reading::specs::Closers::number))]
pub fn unclosed(s: Sort) -> u32
    ensures { result ≡ Tokens.unclosed s }
{
    match closed_by(s) {
        Closer::Quote1 => kind::RIGHT_SINGLE_QUOTE,
        Closer::Quote2 => kind::LEFT_DOUBLE_QUOTE,
        _ => kind::STR,
    }
}

fn pair(first: u32, second: u32) -> DelimEventKind
    ensures { result ≡ pair_of first second }
{
    DelimEventKind::Pair(Pair { first, second })
}

fn link(container: u32, inline: bool) -> DelimEventKind
    ensures { result ≡ link_of container inline }
{
    DelimEventKind::Link(Target { container, inline })
}

// What the closing of an opener makes.
#[tactic(auto, unfolding(reading::specs::Tokens::closing_of))]
pub fn closing_of(s: Sort) -> DelimEventKind
    ensures { result ≡ closing_of s }
{
    match s {
        Sort::Span => DelimEventKind::Span(false),
        Sort::Image => DelimEventKind::Span(true),
        Sort::Strong => pair(kind::ENTER_STRONG, kind::EXIT_STRONG),
        Sort::BraceStrong => pair(kind::ENTER_STRONG, kind::EXIT_STRONG),
        Sort::Emphasis => pair(kind::ENTER_EMPHASIS, kind::EXIT_EMPHASIS),
        Sort::BraceEmphasis => pair(kind::ENTER_EMPHASIS, kind::EXIT_EMPHASIS),
        Sort::Superscript => pair(kind::ENTER_SUPERSCRIPT, kind::EXIT_SUPERSCRIPT),
        Sort::BraceSuperscript => pair(kind::ENTER_SUPERSCRIPT, kind::EXIT_SUPERSCRIPT),
        Sort::Subscript => pair(kind::ENTER_SUBSCRIPT, kind::EXIT_SUBSCRIPT),
        Sort::BraceSubscript => pair(kind::ENTER_SUBSCRIPT, kind::EXIT_SUBSCRIPT),
        Sort::Mark => pair(kind::ENTER_MARK, kind::EXIT_MARK),
        Sort::Delete => pair(kind::ENTER_DELETE, kind::EXIT_DELETE),
        Sort::Insert => pair(kind::ENTER_INSERT, kind::EXIT_INSERT),
        Sort::SingleQuoted => pair(kind::LEFT_SINGLE_QUOTE, kind::RIGHT_SINGLE_QUOTE),
        Sort::DoubleQuoted => pair(kind::LEFT_DOUBLE_QUOTE, kind::RIGHT_DOUBLE_QUOTE),
        Sort::ReferenceLink => link(container::REFERENCE_LINK, false),
        Sort::ReferenceImage => link(container::REFERENCE_IMAGE, false),
        Sort::InlineLink => link(container::INLINE_LINK, true),
        Sort::InlineImage => link(container::INLINE_IMAGE, true),
    }
}

// The link that a `]` begins.
#[tactic(auto, unfolding(reading::specs::Tokens::link_sort))]
pub fn link_sort(image: bool, inline: bool) -> Sort
    ensures { result ≡ link_sort image inline }
{
    match (image, inline) {
        (true, true) => Sort::InlineImage,
        (true, false) => Sort::ReferenceImage,
        (false, true) => Sort::InlineLink,
        (false, false) => Sort::ReferenceLink,
    }
}

// What opens `opens`, closes the mark `closes`, and alone is an event of the kind `alone`.
fn other(opens: Option<Sort>, closes: Option<Closer>, alone: u32) -> Role
    ensures { result ≡ other_of opens closes alone }
{
    Role::Other(Marks {
        opens,
        closes,
        alone,
    })
}

// What opens and closes nothing.
fn plain(kind: u32) -> Role
    ensures { result ≡ other_of None None kind }
{
    other(None, None, kind)
}

// What opens, closes `closes`, and alone is Str.
fn opening(s: Sort, closes: Option<Closer>) -> Role
    ensures { result ≡ other_of (Some s) closes str }
{
    other(Some(s), closes, kind::STR)
}

// What only closes, and alone is Str.
fn closing(closes: Closer) -> Role
    ensures { result ≡ other_of None (Some closes) str }
{
    other(None, Some(closes), kind::STR)
}

#[tactic(auto, unfolding(reading::specs::Tokens::role_of))]
fn open_role(d: Delimiter) -> Role
    ensures { result ≡ role_of (Kind.Open d) }
{
    match d {
        Delimiter::Brace => Role::Brace,
        Delimiter::BraceAsterisk => opening(Sort::BraceStrong, None),
        Delimiter::BraceCaret => opening(Sort::BraceSuperscript, None),
        Delimiter::BraceEqual => opening(Sort::Mark, None),
        Delimiter::BraceHyphen => opening(Sort::Delete, None),
        Delimiter::BracePlus => opening(Sort::Insert, None),
        Delimiter::BraceTilde => opening(Sort::BraceSubscript, None),
        Delimiter::BraceUnderscore => opening(Sort::BraceEmphasis, None),
        Delimiter::Bracket => Role::Bracket,
        Delimiter::BraceQuote1 => other(Some(Sort::SingleQuoted), None, kind::LEFT_SINGLE_QUOTE),
        Delimiter::BraceQuote2 => other(Some(Sort::DoubleQuoted), None, kind::LEFT_DOUBLE_QUOTE),
        Delimiter::Paren => Role::Paren,
    }
}

#[tactic(auto, unfolding(reading::specs::Tokens::role_of))]
fn close_role(d: Delimiter) -> Role
    ensures { result ≡ role_of (Kind.Close d) }
{
    match d {
        Delimiter::Brace => plain(kind::STR),
        Delimiter::BraceAsterisk => closing(Closer::BraceAsterisk),
        Delimiter::BraceCaret => closing(Closer::BraceCaret),
        Delimiter::BraceEqual => closing(Closer::BraceEqual),
        Delimiter::BraceHyphen => closing(Closer::BraceHyphen),
        Delimiter::BracePlus => closing(Closer::BracePlus),
        Delimiter::BraceTilde => closing(Closer::BraceTilde),
        Delimiter::BraceUnderscore => closing(Closer::BraceUnderscore),
        Delimiter::Bracket => closing(Closer::Bracket),
        Delimiter::BraceQuote1 => other(None, Some(Closer::Quote1), kind::RIGHT_SINGLE_QUOTE),
        Delimiter::BraceQuote2 => other(None, Some(Closer::Quote2), kind::RIGHT_DOUBLE_QUOTE),
        Delimiter::Paren => closing(Closer::Paren),
    }
}

#[tactic(auto, unfolding(reading::specs::Tokens::role_of, reading::specs::Tokens::closed_by))]
fn symbol_role(y: Symbol) -> Role
    ensures { result ≡ role_of (Kind.Sym y) }
{
    match y {
        Symbol::Asterisk => opening(Sort::Strong, Some(Closer::Asterisk)),
        Symbol::Caret => opening(Sort::Superscript, Some(Closer::Caret)),
        Symbol::ExclaimBracket => opening(Sort::Image, None),
        Symbol::Lt => Role::Lt,
        Symbol::Pipe => plain(kind::STR),
        Symbol::Quote1 => other(
            Some(Sort::SingleQuoted),
            Some(Closer::Quote1),
            kind::RIGHT_SINGLE_QUOTE,
        ),
        Symbol::Quote2 => other(
            Some(Sort::DoubleQuoted),
            Some(Closer::Quote2),
            kind::RIGHT_DOUBLE_QUOTE,
        ),
        Symbol::Tilde => opening(Sort::Subscript, Some(Closer::Tilde)),
        Symbol::Underscore => opening(Sort::Emphasis, Some(Closer::Underscore)),
        Symbol::Colon => Role::Colon,
    }
}

#[tactic(auto, unfolding(reading::specs::Tokens::role_of))]
fn sequence_role(q: Sequence) -> Role
    ensures { result ≡ role_of (Kind.Seq q) }
{
    match q {
        Sequence::Backtick => Role::Backticks,
        Sequence::Hyphen => Role::Hyphens,
        Sequence::Period => Role::Periods,
    }
}

// What a token is looked at as.
#[tactic(auto, unfolding(reading::specs::Tokens::role_of))]
pub fn role_of(kind: Kind) -> Role
    ensures { result ≡ role_of kind }
{
    match kind {
        Kind::Text => plain(kind::STR),
        Kind::Newline => plain(kind::SOFTBREAK),
        Kind::Nbsp => plain(kind::NBSP),
        Kind::Hardbreak => plain(kind::HARDBREAK),
        Kind::Escape => plain(kind::ESCAPE),
        Kind::Open(d) => open_role(d),
        Kind::Close(d) => close_role(d),
        Kind::Sym(y) => symbol_role(y),
        Kind::Seq(q) => sequence_role(q),
    }
}

// A backtick run.
#[tactic(auto, unfolding(reading::specs::Tokens::is_run))]
pub fn is_run(r: Role) -> bool
    ensures { result ≡ is_run r }
{
    matches!(r, Role::Backticks)
}

// An opener of the sort that a mark closes.
#[tactic(auto, unfolding(reading::specs::Tokens::opens_a, reading::specs::Tokens::opens_closed_by, reading::specs::Closers::number))]
fn opens_a(c: Closer, r: Role) -> bool
    ensures { result ≡ opens_a c r }
{
    let Role::Other(Marks { opens: Some(s), .. }) = r else {
        return false;
    };
    closed_by(s) == c
}

// `{=`
pub fn is_format(r: Role) -> bool
    ensures { result ≡ is_format r }
{
    opens_a(Closer::BraceEqual, r)
}

// `^`
pub fn is_caret(r: Role) -> bool
    ensures { result ≡ is_caret r }
{
    opens_a(Closer::Caret, r)
}

// The bracket that a `]` takes along: `(`, of an inline destination, or `[`.
#[tactic(auto, unfolding(reading::specs::Containers::takes))]
pub fn takes(r: Role) -> Option<bool>
    ensures { result ≡ Containers.takes r }
{
    match r {
        Role::Bracket => Some(false),
        Role::Paren => Some(true),
        _ => None,
    }
}
