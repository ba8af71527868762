// A block: what one step of an offer has above the step before it.
ghost use Rattle.std.specs.Prelude.{◌≤◌};

use market::units::{Price, Tenths};

#[derive(Clone, Copy)]
pub(crate) struct Block {
    pub(crate) price: Price,
    pub(crate) tenths: Tenths,
    ghost most: { tenths ≤ 100000 },
}
