// The header of a file, its figures not yet tested: as the file lends it, and by places that hold after the file is gone.
ghost use Rattle.std.specs.Prelude.{◌≤◌};

use crate::packed::RIGHT_BYTES;
use crate::records::Records;
pub use market::right::MOST_RIGHTS;
use market::right::Right;
use market::units::Price;

// What the file values submissions by.
#[derive(Clone, Copy)]
pub enum LentValuation<'a> {
    // Rates, by kind.
    Rates([Price; 4]),
    // Three factors and two pages, each of so many points.
    Protocol {
        factors: [u8; 3],
        day_ahead: &'a [u8],
        real_time: &'a [u8],
    },
}

// The calls are the rest of the file.
#[derive(Clone, Copy)]
pub struct LentHeader<'a> {
    pub limit: i64,
    pub rights: Records<'a, RIGHT_BYTES, MOST_RIGHTS>,
    pub valuation: LentValuation<'a>,
    pub calls: &'a [u8],
}

#[derive(Clone, Copy)]
pub enum Valuation {
    Rates([Price; 4]),
    // Three factors, and two pages of so many points: day-ahead at the place, and real-time behind it.
    Protocol {
        factors: [u8; 3],
        points: usize,
        pages: usize,
    },
}

// The rights stand in the first `count` places. The calls begin at `length`.
#[derive(Clone, Copy)]
pub struct Header {
    pub limit: i64,
    pub rights: [Right; MOST_RIGHTS],
    pub count: usize,
    pub valuation: Valuation,
    pub length: usize,
    ghost few: { count ≤ 200 },
}
