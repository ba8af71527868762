// The range of a record's values, and the hours and days that a record covers.
ghost use Rattle.std.specs.Prelude.{◌≡◌};
ghost use Rattle.prices.specs.Entries.{value_fits, on_calendar};

use market::units::{HOURS, Hour, Price};

// The days of a record.
pub const DAYS: u8 = 30;

// A record's value is at most this, and at least its negative. It is wider than the range of prices,
// since a difference of two prices is a value too.
pub const MOST_VALUE: Price = 4_000_000;

pub(crate) fn value_fits(value: Price) -> bool
    ensures { result ≡ value_fits value }
{
    (-MOST_VALUE..=MOST_VALUE).contains(&value)
}

pub(crate) fn on_calendar(hour: Hour, day: u8) -> bool
    ensures { result ≡ on_calendar hour day }
{
    (1..=HOURS).contains(&hour) && (1..=DAYS).contains(&day)
}
