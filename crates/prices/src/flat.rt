// A flat record: one price at every point.
ghost use Rattle.std.specs.Prelude.{◌≡◌, true};
ghost use Rattle.market.specs.Units.{price_fits};

use market::units::Price;

#[derive(Clone, Copy)]
pub struct Flat {
    pub(crate) price: Price,
    ghost fits: { price_fits price ≡ true },
}
