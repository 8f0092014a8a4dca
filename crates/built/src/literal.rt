// A literal of the problem that is built.
ghost use Rattle.std.specs.Prelude.{◌≤◌};

// Its sign, and its variable, counted from 1. That two bytes hold it beside the sign is asked where it is written.
#[derive(Clone, Copy)]
pub struct Literal {
    pub negative: bool,
    pub variable: usize,
    ghost low: { 1 ≤ variable },
}
