// A token within its line, from its first byte to before its end.
ghost use Rattle.std.specs.Prelude.{◌≤◌};

#[derive(Clone, Copy)]
pub struct Span {
    pub from: usize,
    pub to: usize,
    ghost ordered: { from ≤ to },
}
