#![tactic(auto)]
// Byte classes, and runs of bytes of one set. Special, blank, punctuation and alphanumeric are read
// from one table.
mod table;

ghost use Rattle.std.specs.Prelude.{◌≡◌, ◌<◌, eqb};
ghost use Rattle.classes.specs.Classes.{blank, alphanumeric, punctuation, flagged};
ghost use Rattle.classes.specs.Sets.{in_set, run};

use table::class_of;

const SPECIAL: u8 = 1;

const BLANK: u8 = 2;

const PUNCTUATION: u8 = 4;

const ALPHANUMERIC: u8 = 8;

// A set of bytes that a run is made of. An enum, where the source passes a closure: the definition
// names the sets (`in_set`), while of a closure a contract has a relation and no predicate.
#[derive(Clone, Copy)]
pub enum Set {
    // Text: not special.
    Plain,
    // Space and tab.
    SpaceTab,
    // An autolink's address.
    Address,
    // An address before its first `:` or `@`.
    Unmarked,
    // A symbol's name.
    Name,
    // A footnote's label.
    Label,
    // A raw format.
    Format,
}

// One flag of a byte, from the table, as the definition asks for it (`flagged`).
fn has(b: u8, flag: u8) -> bool
    requires { 0 < flag }
    ensures { result ≡ flagged flag b }
{
    class_of(b) / flag % 2 == 1
}

#[tactic(auto, using(crate::proofs::Rule::blank_flag))]
pub fn is_blank(b: u8) -> bool
    ensures { result ≡ blank b }
{
    has(b, BLANK)
}

#[tactic(auto, using(crate::proofs::Rule::punctuation_flag))]
pub fn is_punctuation(b: u8) -> bool
    ensures { result ≡ punctuation b }
{
    has(b, PUNCTUATION)
}

#[tactic(auto, using(crate::proofs::Rule::alphanumeric_flag))]
pub fn is_alphanumeric(b: u8) -> bool
    ensures { result ≡ alphanumeric b }
{
    has(b, ALPHANUMERIC)
}

// A byte of a set.
#[tactic(auto, using(crate::proofs::Rule::special_flag, crate::proofs::Rule::blank_flag, crate::proofs::Rule::alphanumeric_flag), unfolding(crate::specs::Sets::in_set, crate::specs::Classes::bytes, crate::specs::Classes::among))]
fn within(b: u8, set: Set) -> bool
    ensures { result ≡ in_set set b }
{
    match set {
        Set::Plain => !has(b, SPECIAL),
        Set::SpaceTab => (b == b' ') | (b == b'\t'),
        Set::Address => !((b == b'<') | (b == b'>') | has(b, BLANK)),
        Set::Unmarked => !((b == b'<') | (b == b'>') | (b == b':') | (b == b'@') | has(b, BLANK)),
        Set::Name => (b == b'-') | (b == b'+') | (b == b'_') | has(b, ALPHANUMERIC),
        Set::Label => !((b == b'[') | (b == b']') | (b == b'\n')),
        Set::Format => !((b == b'{') | (b == b'}') | has(b, BLANK)),
    }
}

// How many bytes at the front are text.
pub fn eat_plain(s: &[u8]) -> usize
    ensures { result ≡ run (in_set Set.Plain) s.now }
{
    eat_while(s, Set::Plain)
}

// How many bytes at the front are of a set.
#[tactic(auto, unfolding(crate::specs::Sets::run))]
pub fn eat_while(s: &[u8], set: Set) -> usize
    ensures { result ≡ run (in_set set) s.now }
{
    s.iter().take_while(|b| within(**b, set)).count()
}

// How many bytes at the front are one byte.
#[tactic(auto, unfolding(crate::specs::Sets::run))]
pub fn eat_seq(s: &[u8], ch: u8) -> usize
    ensures { result ≡ run (eqb ch) s.now }
{
    s.iter().take_while(|b| ch == **b).count()
}
