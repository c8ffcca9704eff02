#![tactic(auto)]
// Events that are put behind the queue: one for a token, those of an accepted scan, of hyphens and
// of periods. What the rules ask of the newest event is noted as it is put.
ghost use Rattle.std.specs.Prelude.{◌≡◌, ◌+◌, ◌-◌, ◌*◌, ◌≤◌, ◌<◌, length, None};
ghost use Rattle.reading.specs.Events.{largest};
ghost use Rattle.reading.specs.Machine.{dollars_of, last_of, puts};
ghost use Rattle.reading.specs.Machine as machine;
ghost use Rattle.reading.specs.Atoms as spec;
ghost use Rattle.dash.specs.Dashes.{dashes_of};
ghost use Rattle.rooms.specs.Standing.{viewed, here, Fits};
ghost use Rattle.rooms.specs.Steps.{Queued, Room, staying};

use lex::Cursor;
use reading::{Last, NOWHERE, kind};
use rooms::{Parser, Span, View};

// A dollar before the i-th byte that no backslash takes out.
fn dollar(v: &View, i: usize) -> bool
    requires i_nonzero { 0 < i }
    requires i_in_bounds { i ≤ length v.now.bytes.now }
    ensures { result ≡ machine.dollar (viewed v.now) i }
{
    (v.byte_before(i) == b'$') & (v.byte_before(i - 1) != b'\\')
}

// How many dollars at the end of a Str a run of backticks behind it takes.
#[tactic(auto, using(std::proofs::lemmas::Bool::Decides::nat_tests), unfolding(reading::specs::Machine::dollars_of))]
fn dollars_of(v: &View, h: Span) -> u32
    requires { h.to ≤ length v.now.bytes.now }
    ensures { result ≡ dollars_of (viewed v.now) h.from h.to }
{
    if h.from < h.to && dollar(v, h.to) {
        if h.from + 1 < h.to && dollar(v, h.to - 1) {
            return 2;
        }
        return 1;
    }
    0
}

// What is noted of an event of a kind: nothing, if it is no Str.
#[tactic(auto, using(std::proofs::lemmas::Bool::Decides::nat_tests), unfolding(reading::specs::Machine::last_of))]
fn last_of(v: &View, kind: u32, h: Span) -> Option<Last>
    requires { Fits (viewed v.now) h }
    ensures { result ≡ last_of (viewed v.now) kind h.from h.to }
{
    if kind == kind::STR {
        return Some(Last {
            end: v.place(h.to),
            dollars: dollars_of(v, h),
        });
    }
    None
}

// An event without home of a token.
pub fn put(p: &mut Parser, v: &View, kind: u32, h: Span)
    requires fits { Fits (viewed v.now) h }
    requires room { Room 1 p.old }
    ensures queued { Queued p.old p.new (staying p.old (machine.put (viewed v.now) kind h.from h.to)) }
    ensures count { p.new.at.events ≡ p.old.at.events + 1 }
{
    p.push(v.homed(kind, NOWHERE, h.from, h.to), last_of(v, kind, h));
}

// So many events of a kind, each w bytes wide, from the i-th byte of the line on. With the place as
// a product of the turn, case (l) of bench/run takes a tenth more, and (h) in lines misses its bar
// in two runs of three, which it meets so.
fn row(p: &mut Parser, v: &View, kind: u32, w: usize, n: usize, i: usize)
    requires w_bound { v.now.base + i + n * w ≤ largest }
    requires room { Room n p.old }
    ensures queued { Queued p.old p.new (staying p.old (puts (spec.row kind w n (v.now.base + i)) None)) }
    ensures count { p.new.at.events ≡ p.old.at.events + n }
{
    p.at.last = None;
    let mut at = i;
    for _ in 0..n {
        p.push(v.homed(kind, NOWHERE, at, at + w), None);
        at += w;
    }
}

// A run of periods: each three are an ellipsis; the rest, even of no bytes, is Str.
pub fn dots(p: &mut Parser, v: &View, h: Span)
    requires fits { Fits (viewed v.now) h }
    requires from_lt_to { h.from < h.to }
    requires room { Room (h.to - h.from) p.old }
    ensures { Queued p.old p.new (staying p.old (spec.dots (viewed v.now) h.from (h.to - h.from))) }
{
    let k = dash::split_periods(h.to - h.from).ellipses;
    row(p, v, kind::ELLIPSIS, 3, k, h.from);
    let rest = Span {
        from: h.from + 3 * k,
        to: h.to,
    };
    put(p, v, kind::STR, rest);
}

// A run of hyphens: em dashes, then en dashes.
pub fn dashes(p: &mut Parser, v: &View, h: Span)
    requires from_bound { h.from + 2 ≤ h.to }
    requires to_bound { v.now.base + h.to ≤ largest }
    requires room { Room (h.to - h.from) p.old }
    ensures { Queued p.old p.new (staying p.old (puts (spec.dashes (dashes_of (h.to - h.from)) (v.now.base + h.from)) None)) }
{
    let d = dash::split_hyphens(h.to - h.from);
    row(p, v, kind::EM_DASH, 3, d.em, h.from);
    row(p, v, kind::EN_DASH, 2, d.en, h.from + 3 * d.em);
}

// An autolink: behind `<`, an address of n bytes, and `>`.
pub fn autolinked(p: &mut Parser, v: &View, h: Span, n: usize)
    requires n_bound { v.now.base + h.to + n + 1 ≤ largest }
    requires room { Room 3 p.old }
    ensures { Queued p.old p.new (spec.autolinked (viewed v.now) (here h p.old.at) n) }
{
    let end = h.to + n;
    let home = v.in_text(h.to, end);
    p.push(v.homed(kind::ENTER_AUTOLINK, home, h.from, h.to), None);
    p.push(v.homed(kind::STR, NOWHERE, h.to, end), None);
    p.push(v.homed(kind::EXIT_AUTOLINK, home, end, end + 1), None);
    p.at.cursor = Cursor::new(end + 1, false);
}

// A symbol or a footnote reference, by its kind: a name of n bytes behind the token, and one byte
// that closes.
pub fn named(p: &mut Parser, v: &View, h: Span, kind: u32, n: usize)
    requires n_bound { v.now.base + h.to + n + 1 ≤ largest }
    requires room { Room 1 p.old }
    ensures { Queued p.old p.new (spec.named kind (viewed v.now) (here h p.old.at) n) }
{
    let end = h.to + n;
    p.push(v.homed(kind, v.in_text(h.to, end), h.from, end + 1), None);
    p.at.cursor = Cursor::new(end + 1, false);
}
