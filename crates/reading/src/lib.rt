#![tactic(auto)]
// The types of a reading: lines, events, openers, and the parts of the parser's state. The
// definition in `specs/` and the parser share them.
ghost use Rattle.std.specs.Prelude.{◌≡◌};
ghost use Rattle.reading.specs.Sorts.{number, sort_at};

pub mod code;
pub mod container;
pub mod kind;
pub mod refusal;

pub use refusal::Refusal;

// The numbers of a record: an event that is handed out, one of the queue, an opener.
pub const EVENT_NUMBERS: usize = 8;

pub const QUEUE_NUMBERS: usize = 8;

pub const OPENER_NUMBERS: usize = 4;

// The largest text in bytes, and the longest line list in records.
pub const LARGEST: usize = 1048576;

// Of a longer label room only so many bytes count.
pub const LABEL_LIMIT: usize = 4294967295;

// The longest run of backticks that opens.
pub const LONGEST_RUN: usize = 255;

// The homes: numbers, for the C interface, since a record that is lent holds any number as its
// home.
pub const NO_HOME: u32 = 0;

pub const IN_TEXT: u32 = 1;

pub const IN_LABELS: u32 = 2;

// A line record of the sheet: from start to before end.
#[repr(C)]
#[derive(Clone, Copy)]
pub struct Line {
    pub start: usize,
    pub end: usize,
}

// A byte place, of the text or of the label room.
#[derive(Clone, Copy, PartialEq, Eq, PartialOrd, Ord)]
pub struct Place(pub u32);

// A link number: links count from 0 in the order in which they close.
#[derive(Clone, Copy)]
pub struct Link(pub u32);

// What an event holds beside its kind and span: the home, from where to where in it, and the link
// number. It is put into flat records as it is (`rooms::event_of`), and where there is no home
// there may be a link number still: so it has the record's numbers, and is no Option.
#[derive(Clone, Copy)]
pub struct Home {
    pub home: u32,
    pub start: Place,
    pub end: Place,
    pub link: Link,
}

// No home.
pub const NOWHERE: Home = Home {
    home: NO_HOME,
    start: Place(0),
    end: Place(0),
    link: Link(0),
};

// An event, as it is handed out: flat, as the record is that C sees.
#[derive(Clone, Copy)]
pub struct Event {
    pub kind: u32,
    pub start: Place,
    pub end: Place,
    pub home: u32,
    pub home_start: Place,
    pub home_end: Place,
    pub link: Link,
}

impl Event {
    ghost use Rattle.reading.specs.Labels.{part};

    // The bytes of the text under its span, as far as there are any: a lent record has any places.
    pub fn under(self, text: &[u8]) -> &[u8]
        ensures { result.now ≡ part text.now self.start.0 self.end.0 }
    {
        let end = (self.end.0 as usize).min(text.len());
        &text[(self.start.0 as usize).min(end)..end]
    }
}

// An event with its line: the index of a fed line.
#[derive(Clone, Copy)]
pub struct Located {
    pub event: Event,
    pub line: u32,
}

// The sorts of openers. `*`, `_`, `^`, `~` without a brace, and quotes with one or without, are
// two-way; all others are one-way.
#[derive(Clone, Copy)]
pub enum Sort {
    Span,
    Image,
    Strong,
    BraceStrong,
    Emphasis,
    BraceEmphasis,
    Superscript,
    BraceSuperscript,
    Subscript,
    BraceSubscript,
    Mark,
    Delete,
    Insert,
    SingleQuoted,
    DoubleQuoted,
    ReferenceLink,
    ReferenceImage,
    InlineLink,
    InlineImage,
}

// The number of a sort in an opener's record: its place in the order above.
impl From<Sort> for u32 {
    ghost from_gives = { λ s n. n ≡ number s };

    #[tactic(auto, unfolding(crate::specs::Sorts::number))]
    fn from(s: Sort) -> u32 {
        s as u32
    }
}

// The sort of a number; of every number of 18 or more the last: a record of the lent room has any
// number, and reading one cannot fail.
impl From<u32> for Sort {
    ghost from_gives = { λ n s. s ≡ sort_at n };

    #[tactic(auto, unfolding(crate::specs::Sorts::sort_at, crate::specs::Sorts::sorts))]
    fn from(n: u32) -> Sort {
        match n {
            0 => Sort::Span,
            1 => Sort::Image,
            2 => Sort::Strong,
            3 => Sort::BraceStrong,
            4 => Sort::Emphasis,
            5 => Sort::BraceEmphasis,
            6 => Sort::Superscript,
            7 => Sort::BraceSuperscript,
            8 => Sort::Subscript,
            9 => Sort::BraceSubscript,
            10 => Sort::Mark,
            11 => Sort::Delete,
            12 => Sort::Insert,
            13 => Sort::SingleQuoted,
            14 => Sort::DoubleQuoted,
            15 => Sort::ReferenceLink,
            16 => Sort::ReferenceImage,
            17 => Sort::InlineLink,
            _ => Sort::InlineImage,
        }
    }
}

// A potential opener: its sort, the place of its event in the queue and, of a link, that of the
// event of its text's `[`. Places in the lent queue, since nothing is allocated.
#[derive(Clone, Copy)]
pub struct Opener {
    pub sort: Sort,
    pub event: usize,
    pub span: usize,
}

// The closing marks: what a token closes. A quote closes with a brace or without, so that each
// quote is one mark.
#[derive(Clone, Copy, PartialEq, Eq)]
pub enum Closer {
    // `]`
    Bracket,
    // `)`
    Paren,
    // `*`
    Asterisk,
    // `*}`
    BraceAsterisk,
    // `_`
    Underscore,
    // `_}`
    BraceUnderscore,
    // `^`
    Caret,
    // `^}`
    BraceCaret,
    // `~`
    Tilde,
    // `~}`
    BraceTilde,
    // `=}`
    BraceEqual,
    // `-}`
    BraceHyphen,
    // `+}`
    BracePlus,
    // `'`
    Quote1,
    // `"`
    Quote2,
}

// A token as the rules on containers see it: what it opens, the mark that it closes, and the kind
// of event that it is alone.
#[derive(Clone, Copy)]
pub struct Marks {
    pub opens: Option<Sort>,
    pub closes: Option<Closer>,
    pub alone: u32,
}

// What a token outside verbatim is looked at as, first.
#[derive(Clone, Copy)]
pub enum Role {
    Backticks,
    Brace,
    Lt,
    Colon,
    Bracket,
    Paren,
    Periods,
    Hyphens,
    Other(Marks),
}

// The two events of a pair: what the opener's event becomes, and what is put at its end.
#[derive(Clone, Copy)]
pub struct Pair {
    pub first: u32,
    pub second: u32,
}

// A link: its container, and whether its destination is inline.
#[derive(Clone, Copy)]
pub struct Target {
    pub container: u32,
    pub inline: bool,
}

// What the closing of an opener makes: a pair of events; a span, of an image or not, that may go on
// as a link; or a link.
#[derive(Clone, Copy)]
pub enum DelimEventKind {
    Pair(Pair),
    Span(bool),
    Link(Target),
}

// An open verbatim: the place of its enter in the queue, the length of its run, whether non-blank
// content was seen, whether the last of it was a backtick run, how long the queue was just behind
// it, and whether the opener stands on the current line. The definition has run and length apart:
// the length says of every open verbatim where the blanks at its end begin, whatever the last
// content was.
#[derive(Clone, Copy)]
pub struct Verbatim {
    pub event: usize,
    pub len: usize,
    pub seen: bool,
    pub run: bool,
    pub keep: usize,
    pub here: bool,
}

// The newest event, where it is a Str: its end, and how many dollars a backtick run right behind it
// takes.
#[derive(Clone, Copy)]
pub struct Last {
    pub end: Place,
    pub dollars: u32,
}

// The answer: code, place, how many events, how many label bytes, and how many opener records were
// looked at while those were sought that a token closes.
#[repr(C)]
#[derive(Clone, Copy, PartialEq, Eq)]
pub struct Answer {
    pub code: u32,
    pub place: u32,
    pub events: u32,
    pub labels: u32,
    pub looks: u64,
}
