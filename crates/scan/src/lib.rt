#![tactic(auto)]
// The scans ahead of `inline.rs`, over a line from the place behind what opens. A scan finds the
// length up to what closes, or nothing. It takes the line and a place: C lends any place, and one
// past the line's end finds nothing.
ghost use Rattle.std.specs.Prelude.{◌≡◌, ◌<◌, drop};
ghost use Rattle.scan.specs.Scans.{closed_at, upto_of, autolink_of, symbol_of, footnote_of, raw_format_of};

use classes::Set;

// Behind `<`: an address up to `>`, with a `:` or a `@` in it.
#[tactic(auto, unfolding(crate::specs::Scans::autolink_of))]
pub fn ahead_autolink(src: &[u8], from: usize) -> Option<usize>
    ensures { result ≡ autolink_of (drop from src.now) }
{
    autolink(ahead_of(src, from))
}

// Behind `:`: a name up to `:`.
#[tactic(auto, unfolding(crate::specs::Scans::symbol_of))]
pub fn ahead_symbol(src: &[u8], from: usize) -> Option<usize>
    ensures { result ≡ symbol_of (drop from src.now) }
{
    upto(ahead_of(src, from), Set::Name, b':')
}

// Behind `[^`: a label up to `]`.
#[tactic(auto, unfolding(crate::specs::Scans::footnote_of))]
pub fn ahead_footnote(src: &[u8], from: usize) -> Option<usize>
    ensures { result ≡ footnote_of (drop from src.now) }
{
    upto(ahead_of(src, from), Set::Label, b']')
}

// Behind `{=`: a format up to `}`, of at least one byte.
#[tactic(auto, unfolding(crate::specs::Scans::raw_format_of, crate::specs::Scans::upto_of))]
pub fn ahead_raw_format(src: &[u8], from: usize) -> Option<usize>
    ensures { result ≡ raw_format_of (drop from src.now) }
{
    let s = ahead_of(src, from);
    let n = classes::eat_while(s, Set::Format);
    if n == 0 {
        return None;
    }
    closed(s, n, b'}')
}

// The bytes of a line from a place on.
fn ahead_of(src: &[u8], from: usize) -> &[u8]
    ensures { result.now ≡ drop from src.now }
{
    &src[from.min(src.len())..]
}

// An address goes up to its first `:` or `@`, and from there to what ends it.
#[tactic(auto, using(crate::proofs::Addresses::autolink_miss, crate::proofs::Addresses::autolink_end, crate::proofs::Addresses::autolink_hit, crate::proofs::Addresses::mark_is))]
fn autolink(s: &[u8]) -> Option<usize>
    ensures { result ≡ autolink_of s.now }
{
    let n = classes::eat_while(s, Set::Unmarked);
    if s.len() <= n {
        return None;
    }
    let b = s[n];
    if (b == b':') | (b == b'@') {
        let more = classes::eat_while(&s[n..], Set::Address);
        return closed(s, n + more, b'>');
    }
    None
}

// The bytes of a set up to a byte that closes.
#[tactic(auto, unfolding(crate::specs::Scans::upto_of))]
fn upto(s: &[u8], set: Set, close: u8) -> Option<usize>
    requires { 0 < close }
    ensures { result ≡ upto_of set close s.now }
{
    closed(s, classes::eat_while(s, set), close)
}

// A length, if the byte behind it closes.
#[tactic(auto, unfolding(crate::specs::Scans::closed_at))]
fn closed(s: &[u8], n: usize, close: u8) -> Option<usize>
    requires { 0 < close }
    ensures { result ≡ closed_at s.now n close }
{
    (n < s.len() && s[n] == close).then_some(n)
}
