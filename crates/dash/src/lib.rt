#![tactic(auto)]
// The split of a run of hyphens into dashes, and of a run of periods into ellipses.
ghost use Rattle.std.specs.Prelude.{◌≡◌};
ghost use Rattle.dash.specs.Dashes.{dashes, dashes_of, dots_of};

// How many em dashes, and then how many en dashes.
#[derive(Clone, Copy)]
pub struct Dashes {
    pub em: usize,
    pub en: usize,
}

// How many ellipses, and how many periods are left.
#[derive(Clone, Copy)]
pub struct Dots {
    pub ellipses: usize,
    pub rest: usize,
}

// A run of hyphens, in the six cases of its length by six. Fewer than two are no dash.
pub fn split_hyphens(len: usize) -> Dashes
    ensures { result ≡ dashes_of len }
{
    if len < 2 {
        return split(0, 0);
    }
    match len % 6 {
        0 | 3 => split(len / 3, 0),
        2 | 4 => split(0, len / 2),
        5 => split((len - 2) / 3, 1),
        // 1: no other number is left by six
        _ => split((len - 4) / 3, 2),
    }
}

fn split(em: usize, en: usize) -> Dashes
    ensures { result ≡ dashes em en }
{
    Dashes { em, en }
}

// A run of periods.
pub fn split_periods(len: usize) -> Dots
    ensures { result ≡ dots_of len }
{
    Dots {
        ellipses: len / 3,
        rest: len % 3,
    }
}
