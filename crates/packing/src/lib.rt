#![tactic(auto)]
// What a packed list of events is made of: the faults of one, and which numbers an event of a kind
// has. Kinds and homes are numbers, and no enums: C lends records of any numbers.
ghost use Rattle.std.specs.Prelude.{◌≡◌, ◌≤◌, ◌<◌, ◌+◌, ◌&&◌, ◌||◌, leb, Some};
ghost use Rattle.reading.specs.Events.{enter_from, exit_from};
ghost use Rattle.reading.specs.Homes.{known as known_of, has_home as has_home_of, has_link as has_link_of};
ghost use Rattle.packing.specs.Packed.{may_have as may_have_of};
ghost use Rattle.packing.specs.Told.{fault_text};

use reading::{IN_LABELS, NO_HOME, container, kind};
use std::fmt;

// The largest number.
pub const LARGEST: u32 = u32::MAX;

// What is wrong with a packed list.
#[derive(Clone, Copy, Debug, PartialEq, Eq)]
pub enum Fault {
    // It ends within a number.
    Cut,
    // A number has more groups than it needs.
    Longer,
    // A number is over the largest.
    TooLarge,
    // A start or an end is over it.
    Beyond,
    UnknownKind,
    // A home over 2, or on a kind without one.
    WrongHome,
    // Bytes are left over.
    Rest,
}

// What it is, in plain words.
impl fmt::Display for Fault {
    ghost output = { λ f. Some (fault_text f) };

    fn fmt<W: fmt::Write>(&self, f: &mut fmt::Formatter<W>) -> fmt::Result {
        match self {
            Fault::Cut => f.write_str("the list ends there, within a number or before one"),
            Fault::Longer => f.write_str("the number there has more bytes than it needs"),
            Fault::TooLarge => f.write_str("the number there is over 4294967295"),
            Fault::Beyond => f.write_str(
                "the number there moves a start or an end beyond 4294967295",
            ),
            Fault::UnknownKind => f.write_str("the number there is no kind of an event"),
            Fault::WrongHome => f.write_str(
                "the number there is no home, or the event's kind has none",
            ),
            Fault::Rest => f.write_str("bytes are left over from there on"),
        }
    }
}

// A fault, and its place.
#[derive(Clone, Copy, Debug, PartialEq, Eq)]
pub struct FaultAt {
    pub fault: Fault,
    pub place: usize,
}

impl Fault {
    pub fn at(self, place: usize) -> FaultAt
        ensures { result ≡ record { fault = self; place = place } }
    {
        FaultAt { fault: self, place }
    }
}

// An enter or an exit of one of the containers from one to another. `|` here and below, where `||`
// would do, so that no branch is made of it: with `||` packing takes an eighth longer
// (docs/BENCHMARK.md).
#[tactic(auto, using(std::proofs::lemmas::Bool::Decides::nat_tests))]
fn marks(k: u32, from: u32, to: u32) -> bool
    requires in_order { from ≤ to }
    requires a_container { to < 32 }
    ensures { result ≡ ((leb (enter_from + from) k && leb k (enter_from + to))
        || (leb (exit_from + from) k && leb k (exit_from + to))) }
{
    (kind::ENTER + from <= k && k <= kind::ENTER + to)
        | (kind::EXIT + from <= k && k <= kind::EXIT + to)
}

// A kind that is handed out.
#[tactic(auto, using(std::proofs::lemmas::Bool::Decides::nat_tests), unfolding(reading::specs::Homes::known, reading::specs::Homes::container_of))]
pub fn known(k: u32) -> bool
    ensures { result ≡ known_of k }
{
    matches!(k, kind::STR..=kind::FOOTNOTE_REFERENCE)
        | marks(k, container::SUBSCRIPT, container::AUTOLINK)
}

// A kind with a home.
#[tactic(auto, using(std::proofs::lemmas::Bool::Decides::nat_tests), unfolding(reading::specs::Homes::has_home, reading::specs::Homes::container_of))]
pub fn has_home(k: u32) -> bool
    ensures { result ≡ has_home_of k }
{
    matches!(k, kind::SYMBOL..=kind::FOOTNOTE_REFERENCE)
        | marks(k, container::RAW_FORMAT, container::RAW_FORMAT)
        | marks(k, container::REFERENCE_LINK, container::AUTOLINK)
}

// A kind with a link number.
#[tactic(auto, using(std::proofs::lemmas::Bool::Decides::nat_tests), unfolding(reading::specs::Homes::has_link, reading::specs::Homes::container_of))]
pub fn has_link(k: u32) -> bool
    ensures { result ≡ has_link_of k }
{
    marks(k, container::REFERENCE_LINK, container::INLINE_IMAGE)
}

// A home that a kind may have.
#[tactic(auto, using(std::proofs::lemmas::Bool::Decides::nat_tests), unfolding(crate::specs::Packed::may_have))]
pub fn may_have(k: u32, home: u32) -> bool
    ensures { result ≡ may_have_of k home }
{
    home == NO_HOME || (home <= IN_LABELS && has_home(k))
}
