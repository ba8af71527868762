// A figure: what a percentile of price records gave, in cents.
ghost use Rattle.std.specs.Prelude.{pos, neg_ℤ, ◌≤ℤ◌};

use market::units::Price;

#[derive(Clone, Copy)]
pub struct Figure {
    pub cents: Price,
    ghost low: { neg_ℤ (pos 4000000) ≤ℤ cents },
    ghost high: { cents ≤ℤ pos 4000000 },
}
