#![tactic(auto)]
// Numbers in groups of seven bits: the lowest group first, the high bit set on all but the last, in
// the shortest form.
ghost use Rattle.std.specs.Prelude.{◌≡◌, ◌+◌, ◌<◌, ◌≤◌, [], ◌∷◌, length, drop};
ghost use Rattle.output.specs.Written.{Adds};
ghost use Rattle.groups.specs.Groups.{spelled, spelled_all, front, placed, more as more_of, number_at};

use output::Output;

// The high bit of a group, and how many numbers its other seven bits tell apart.
const HIGH: u32 = 128;

// The most groups of a number, and the largest fifth group.
const GROUPS: usize = 5;

const FIFTH: u32 = 15;

// Why no number stands at a place: the bytes end within it, it is longer than needed, or it is too
// large.
#[derive(Clone, Copy, Debug, PartialEq, Eq)]
pub enum NumberError {
    Cut,
    Longer,
    TooLarge,
}

// A number behind what is written, by what is left of it.
#[tactic(auto, using(crate::proofs::Turns::rest_all, crate::proofs::Turns::rest_turn))]
fn put_more(out: &mut Output, n: u32) -> Option<()>
    ensures { Adds out.old (spelled n) result out.new }
{
    let mut rest = n;
    while HIGH <= rest {
        out.put_byte((HIGH + rest % HIGH) as u8)?;
        rest /= HIGH;
    }
    out.put_byte(rest as u8)
}

// A number behind what is written. Most have one group, and are written without the loop.
#[tactic(auto, using(crate::proofs::Turns::spelled_one))]
pub fn put_number(out: &mut Output, n: u32) -> Option<()>
    ensures { Adds out.old (spelled n) result out.new }
{
    if n < HIGH {
        return out.put_byte(n as u8);
    }
    put_more(out, n)
}

// Five numbers behind one another. If each has one group, as mostly, and the fourth one or two, all
// are put at once.
#[tactic(auto, using(crate::proofs::Turns::spelled_five, crate::proofs::Turns::spelled_six), unfolding(crate::specs::Groups::spelled_all))]
pub fn put_five(out: &mut Output, a: u32, b: u32, c: u32, d: u32, e: u32) -> Option<()>
    ensures { Adds out.old (spelled_all (a ∷ b ∷ c ∷ d ∷ e ∷ [])) result out.new }
{
    if a < HIGH && b < HIGH && c < HIGH && d < HIGH * HIGH && e < HIGH {
        let (a, b, c, e) = (a as u8, b as u8, c as u8, e as u8);
        if d < HIGH {
            return out.put(&[a, b, c, d as u8, e]);
        }
        return out.put(&[a, b, c, (HIGH + d % HIGH) as u8, (d / HIGH) as u8, e]);
    }
    put_number(out, a)?;
    put_number(out, b)?;
    put_number(out, c)?;
    put_number(out, d)?;
    put_number(out, e)
}

// The number at a place whose first group has the high bit, and is low without it.
fn more(bytes: &[u8], at: usize, low: u32) -> Result<(u32, usize), NumberError>
    requires at_in_bounds { at < length bytes.now }
    requires low_bound { low < 128 }
    ensures { result ≡ placed at (more_of low (front 3 (drop (at + 1) bytes.now))) }
{
    let mut value = low;
    let mut weight: u32 = HIGH;
    for i in at + 1..bytes.len() {
        let b = u32::from(bytes[i]);
        if i - at == GROUPS - 1 && FIFTH < b {
            return Err(NumberError::TooLarge);
        }
        if b == 0 {
            return Err(NumberError::Longer);
        }
        if b < HIGH {
            return Ok((value + b * weight, i + 1));
        }
        value += (b - HIGH) * weight;
        weight *= HIGH;
    }
    Err(NumberError::Cut)
}

// The number that stands at a place, and the place behind it. It takes the bytes and the place, as
// the definition does.
#[tactic(auto, using(crate::proofs::Turns::number_cut, crate::proofs::Turns::number_one, crate::proofs::Turns::number_more))]
pub fn number_at(bytes: &[u8], at: usize) -> Result<(u32, usize), NumberError>
    ensures { result ≡ number_at bytes.now at }
{
    let b = u32::from(*bytes.get(at).ok_or(NumberError::Cut)?);
    if b < HIGH {
        return Ok((b, at + 1));
    }
    more(bytes, at, b - HIGH)
}
