// Rates: one price for each kind of submission.
ghost use Rattle.std.specs.Prelude.{◌≡◌, true};
ghost use Rattle.exposure.specs.Ranges.{rates_fit};

use market::units::Price;

// The prices go by kind: energy bid, energy-only offer, three-part offer, point-to-point bid. Callers and files have
// them in a row, so four fields with names would be no plainer.
#[derive(Clone, Copy)]
pub struct Rates {
    pub(crate) prices: [Price; 4],
    ghost fit: { rates_fit prices ≡ true },
}
