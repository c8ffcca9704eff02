// The attribute validator of `attr.rs`: the states, a step over one byte, and a validator that is
// fed bytes.
ghost use Rattle.std.specs.Prelude.{◌≡◌};
ghost use Rattle.attr.specs.Attributes.{name, opening, parts, comment, first, rest, key, value, quoted, escaped, continued};
ghost use Rattle.attr.specs.Attributes.{step, fed, is_done, is_decided};

#[derive(Clone, Copy)]
pub struct Validator {
    pub state: State,
}

impl Validator {
    pub const START: State = State::Start;

    pub const DONE: State = State::Done;

    pub fn new() -> Validator
        ensures { result ≡ record { state = State.Start } }
    {
        Validator {
            state: Validator::START,
        }
    }

    // Goes on over some bytes, up to the first that decides.
    #[tactic(auto, using(crate::proofs::Feeding::going_all, crate::proofs::Feeding::going_decided, crate::proofs::Feeding::going_on))]
    pub fn parse(self, input: &[u8]) -> Validator
        ensures { result ≡ record { state = fed input.now self.state } }
    {
        let mut state = self.state;
        for c in input {
            if state.decided() {
                return Validator { state };
            }
            state = state.step(*c);
        }
        Validator { state }
    }

    // No later byte changes it.
    pub fn decided(self) -> bool
        ensures { result ≡ is_decided self.state }
    {
        self.state.decided()
    }

    // An attribute block stands there.
    #[tactic(auto, unfolding(crate::specs::Attributes::is_done))]
    pub fn done(self) -> bool
        ensures { result ≡ is_done self.state }
    {
        matches!(self.state, State::Done)
    }
}

#[derive(Clone, Copy)]
pub enum State {
    Start,
    Whitespace,
    CommentFirst,
    Comment,
    CommentNewline,
    ClassFirst,
    Class,
    IdentifierFirst,
    Identifier,
    Key,
    ValueFirst,
    Value,
    ValueQuoted,
    ValueEscape,
    ValueNewline,
    ValueContinued,
    Done,
    Invalid,
}

impl State {
    // One byte. Where the source panics, what is decided stays so. The match and the rows below are
    // the source's table: rows of one shape (`opening` and `escaped`, `key` and `value`) name other
    // bytes and other states, and one function of both would hide which state it is of.
    #[tactic(auto, unfolding(crate::specs::Attributes::step))]
    fn step(self, c: u8) -> State
        ensures { result ≡ step self c }
    {
        match self {
            State::Start => opening(c),
            State::Whitespace => parts(c),
            State::CommentFirst | State::Comment | State::CommentNewline => comment(c),
            State::ClassFirst => first(State::Class, c),
            State::IdentifierFirst => first(State::Identifier, c),
            State::Class | State::Identifier | State::Value => rest(self, c),
            State::Key => key(c),
            State::ValueFirst => value(c),
            State::ValueQuoted => quoted(c),
            State::ValueEscape => escaped(c),
            State::ValueNewline | State::ValueContinued => continued(c),
            State::Invalid | State::Done => self,
        }
    }

    #[tactic(auto, unfolding(crate::specs::Attributes::is_decided))]
    fn decided(self) -> bool
        ensures { result ≡ is_decided self }
    {
        matches!(self, State::Done | State::Invalid)
    }
}

// The brace.
#[tactic(auto, unfolding(crate::specs::Attributes::by))]
fn opening(c: u8) -> State
    ensures { result ≡ opening c }
{
    match c {
        b'{' => State::Whitespace,
        _ => State::Invalid,
    }
}

// Between two parts.
#[tactic(auto, unfolding(crate::specs::Attributes::by))]
fn parts(c: u8) -> State
    ensures { result ≡ parts c }
{
    match c {
        b'}' => Validator::DONE,
        b'.' => State::ClassFirst,
        b'#' => State::IdentifierFirst,
        b'%' => State::CommentFirst,
        _ if is_name(c) => State::Key,
        _ if classes::is_blank(c) => State::Whitespace,
        _ => State::Invalid,
    }
}

#[tactic(auto, unfolding(crate::specs::Attributes::by))]
fn comment(c: u8) -> State
    ensures { result ≡ comment c }
{
    match c {
        b'%' => State::Whitespace,
        b'}' => Validator::DONE,
        b'\n' => State::CommentNewline,
        _ => State::Comment,
    }
}

// The first byte of a name.
#[tactic(auto, unfolding(crate::specs::Attributes::by))]
fn first(s: State, c: u8) -> State
    ensures { result ≡ first s c }
{
    if is_name(c) { s } else { State::Invalid }
}

// A later byte of a name that a blank or the block's end may follow.
#[tactic(auto, unfolding(crate::specs::Attributes::by))]
fn rest(s: State, c: u8) -> State
    ensures { result ≡ rest s c }
{
    match c {
        _ if is_name(c) => s,
        _ if classes::is_blank(c) => State::Whitespace,
        b'}' => Validator::DONE,
        _ => State::Invalid,
    }
}

#[tactic(auto, unfolding(crate::specs::Attributes::by))]
fn key(c: u8) -> State
    ensures { result ≡ key c }
{
    match c {
        _ if is_name(c) => State::Key,
        b'=' => State::ValueFirst,
        _ => State::Invalid,
    }
}

#[tactic(auto, unfolding(crate::specs::Attributes::by))]
fn value(c: u8) -> State
    ensures { result ≡ value c }
{
    match c {
        _ if is_name(c) => State::Value,
        b'"' => State::ValueQuoted,
        _ => State::Invalid,
    }
}

// In quotes, on the line they opened on.
#[tactic(auto, unfolding(crate::specs::Attributes::by))]
fn quoted(c: u8) -> State
    ensures { result ≡ quoted c }
{
    match c {
        b'"' => State::Whitespace,
        b'\n' => State::ValueNewline,
        b'\\' => State::ValueEscape,
        _ => State::ValueQuoted,
    }
}

// Behind a backslash there.
#[tactic(auto, unfolding(crate::specs::Attributes::by))]
fn escaped(c: u8) -> State
    ensures { result ≡ escaped c }
{
    match c {
        b'\n' => State::ValueNewline,
        _ => State::ValueQuoted,
    }
}

// On a later line.
#[tactic(auto, unfolding(crate::specs::Attributes::by))]
fn continued(c: u8) -> State
    ensures { result ≡ continued c }
{
    match c {
        b'"' => State::Whitespace,
        b'\n' => State::ValueNewline,
        _ => State::ValueContinued,
    }
}

#[tactic(auto, unfolding(crate::specs::Attributes::name, classes::specs::Classes::bytes, classes::specs::Classes::among))]
fn is_name(c: u8) -> bool
    ensures { result ≡ name c }
{
    classes::is_alphanumeric(c) | matches!(c, b':' | b'_' | b'-')
}
