// The units of the market, and the ranges of its figures.
ghost use Rattle.std.specs.Prelude.{◌≡◌};
ghost use Rattle.market.specs.Units.{price_fits};

// Cents per MWh.
pub type Price = i32;

// Tenths of a MW.
pub type Tenths = u32;

// A settlement point.
pub type Point = u16;

// An hour of the operating day.
pub type Hour = u8;

// A qualified scheduling entity, through which the counter-party bids.
pub type Qse = u8;

pub const MOST_PRICE: Price = 1_000_000;

pub const MOST_QUANTITY: Tenths = 100_000;

pub const HOURS: Hour = 24;

pub const QSES: Qse = 8;

pub const MOST_STEPS: usize = 10;

// Whether a price, of a step, a record or a rate, is within its range.
pub fn price_fits(price: Price) -> bool
    ensures { result ≡ price_fits price }
{
    (-MOST_PRICE..=MOST_PRICE).contains(&price)
}
