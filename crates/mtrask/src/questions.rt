// The questions that the arguments ask.
ghost use Rattle.std.specs.Prelude.{◌≤◌};

use summary::questions::Question;

// The first `count` of an area: there is no heap.
#[derive(Clone, Copy)]
pub struct Questions {
    pub all: [Question; 64],
    pub count: usize,
    ghost few: { count ≤ 64 },
}
