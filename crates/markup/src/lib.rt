#![tactic(auto)]
// The fragment's definition and laws (`specs`, `proofs`), and how many raw parts are open.
ghost use Rattle.std.specs.Prelude.{◌≡◌, suc, ◌^◌, ◌<◌};
ghost use Rattle.markup.specs.Markup.{raw_behind as raw_behind_of};

use reading::{container, kind};

const EXIT_RAW_FORMAT: u32 = kind::EXIT + container::RAW_FORMAT;

// How many raw parts are open behind an event, if n are before it.
#[tactic(auto, unfolding(crate::specs::Markup::raw_behind))]
pub fn raw_behind(n: usize, k: u32) -> usize
    requires { suc n < 2 ^ 64 }
    ensures { result ≡ raw_behind_of n k }
{
    match k {
        kind::ENTER_RAW_FORMAT => n + 1,
        EXIT_RAW_FORMAT => n.saturating_sub(1),
        _ => n,
    }
}
