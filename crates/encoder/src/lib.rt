#![tactic(auto)]
// Writing a packed list: whether an event can be written, its bytes, and those of all.
ghost use Rattle.std.specs.Prelude.{◌≡◌, ◌-◌, ◌≤◌, ◌/◌, [], length, take, is_none, IfOk};
ghost use Rattle.output.specs.Written.{Adds};
ghost use Rattle.groups.specs.Groups.{spelled_all};
ghost use Rattle.reading.specs.Homes.{has_link};
ghost use Rattle.packing.specs.Packed.{given, present, fields, packed, idle as idle_of, flaw_of, first_flaw};
ghost use Rattle.encoder.specs.Encoding.{whole, put_as, Forward};

use groups::{put_five, put_number};
use output::Output;
use packing::LARGEST;
use reading::{EVENT_NUMBERS, Event, Located, NO_HOME, Place};

// Why a list is not written: the first event that cannot be written, or a room that does not hold
// the bytes.
#[derive(Clone, Copy, Debug, PartialEq, Eq)]
pub enum PutError {
    Flaw(usize),
    Full,
}

// The fields without meaning are 0.
#[tactic(auto, using(std::proofs::lemmas::Bool::Decides::nat_tests), unfolding(packing::specs::Packed::idle))]
fn idle(e: Event) -> bool
    ensures { result ≡ idle_of e }
{
    (e.home != NO_HOME || (e.home_start.0 == 0 && e.home_end.0 == 0))
        && (packing::has_link(e.kind) || e.link.0 == 0)
}

// The event with i others before it, the last of which ends at prev, can be written.
#[tactic(auto, using(std::proofs::lemmas::Bool::Decides::nat_tests), unfolding(packing::specs::Packed::flaw_of, packing::specs::Packed::unless))]
fn sound(i: usize, prev: Place, e: Event) -> bool
    ensures { result ≡ is_none (flaw_of i prev.0 e) }
{
    packing::known(e.kind)
        && packing::may_have(e.kind, e.home)
        && e.start <= e.end
        && e.home_start <= e.home_end
        && prev <= e.start
        && idle(e)
        && i < LARGEST as usize
}

// An event with its line, behind one that ends at prev.
#[tactic(auto, unfolding(groups::specs::Groups::spelled_all, packing::specs::Packed::fields))]
fn put_event(out: &mut Output, prev: Place, r: Located) -> Option<()>
    requires { Forward prev.0 r.event }
    ensures { Adds out.old (spelled_all (fields prev.0 r)) result out.new }
{
    let e = r.event;
    let gap = e.start.0 - prev.0;
    let length = e.end.0 - e.start.0;
    put_five(out, e.kind, gap, length, r.line, e.home)?;
    put_behind_home(out, e)
}

// The numbers behind an event's home: its range if there is a home, and the link number of a kind
// with one.
#[tactic(auto, unfolding(groups::specs::Groups::spelled_all, packing::specs::Packed::given))]
fn put_behind_home(out: &mut Output, e: Event) -> Option<()>
    requires { e.home_start.0 ≤ e.home_end.0 }
    ensures { Adds out.old (spelled_all (given (present e.home) e.home_start.0
        (given (present e.home) (e.home_end.0 - e.home_start.0)
        (given (has_link e.kind) e.link.0 [])))) result out.new }
{
    if e.home != NO_HOME {
        put_number(out, e.home_start.0)?;
        put_number(out, e.home_end.0 - e.home_start.0)?;
    }
    if packing::has_link(e.kind) {
        put_number(out, e.link.0)?;
    }
    Some(())
}

// The whole records of a room, written from the front of another. It hands out how many bytes they
// are, as the answer has it, and no part of the room: what lies behind is the caller's to clear.
// Behind the event at which the room ends the others are looked at: a flaw comes before the room.
pub fn put_list(events: &[u32], room: &mut [u8]) -> Result<usize, PutError>
    ensures answer { result ≡ put_as (first_flaw 0 0 (whole events.now))
        (length (packed (whole events.now))) (length room.old) }
    ensures within { IfOk result (λ n. n ≤ length room.old) }
    ensures bytes { IfOk result (λ n. take n room.new ≡ packed (whole events.now)) }
{
    let n = events.len() / EVENT_NUMBERS;
    let mut out = Output::new(room);
    let mut fits = n <= LARGEST as usize && put_number(&mut out, n as u32).is_some();
    let mut prev = Place(0);
    for i in 0..n {
        let r = listing::record_at(events, i);
        if !sound(i, prev, r.event) {
            return Err(PutError::Flaw(i));
        }
        fits = fits && put_event(&mut out, prev, r).is_some();
        prev = r.event.end;
    }
    if fits {
        Ok(out.count())
    } else {
        Err(PutError::Full)
    }
}
