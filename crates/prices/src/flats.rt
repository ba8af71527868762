// Making a flat record, and asking it.
ghost use Rattle.std.specs.Prelude.{◌≡◌, Some};
ghost use Rattle.prices.specs.Entries.{known};
ghost use Rattle.prices.specs.Making.{flat_of};
ghost use Rattle.prices.specs.Ranges.{price_within};

use crate::fault::RecordFault;
use crate::flat::Flat;
use crate::range::on_calendar;
use crate::record::Record;
use market::refusal::Refusal;
use market::units::{Hour, Point, Price, price_fits};

impl Flat {
    // The record of exactly this price, or a refusal.
    pub fn make(price: Price) -> Result<Flat, Refusal>
        ensures { result ≡ flat_of price }
    {
        if !price_fits(price) {
            return Err(Refusal::OutOfRange);
        }
        Ok(Flat { price })
    }
}

// Every point is known.
impl Record for Flat {
    ghost meaning = { λ s p. known (λ h d. Some s.price) };

    ghost ranged = { λ s p h d. price_within s.price s.fits };

    fn ask(&self, _point: Point, hour: Hour, day: u8) -> Result<Option<Price>, RecordFault> {
        Ok(on_calendar(hour, day).then_some(self.price))
    }
}
