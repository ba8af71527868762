// A curve: steps that keep the rules of their side.
ghost use Rattle.std.specs.Prelude.{◌≡◌, ◌≤◌, true, take};
ghost use Rattle.market.specs.Curves.{lawful};

use crate::step::{Side, Step};
use crate::units::MOST_STEPS;

// The first `count` places hold the steps; the others are blank. Ten places and a count, and no vector, of a fixed
// capacity or not: a curve is copied into each row of a book, and no row may need memory.
#[derive(Clone, Copy)]
pub struct Curve {
    pub(crate) side: Side,
    pub(crate) steps: [Step; MOST_STEPS],
    pub(crate) count: usize,
    ghost short: { count ≤ 10 },
    ghost kept: { lawful side (take count steps) ≡ true },
}
