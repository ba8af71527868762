// A page: cells in the bytes of a file, by point, then hour, then day.
ghost use Rattle.std.specs.Prelude.{◌≡◌, ◌+◌, ◌≤◌, length};
ghost use Rattle.prices.specs.Pages.{points_in, place_of, cell_at, page_entry};
ghost use Rattle.prices.specs.Ranges.{page_ranged};

use crate::fault::{Label, RecordFault};
use crate::range::{DAYS, on_calendar};
use crate::record::Record;
use market::units::{HOURS, Hour, Point, Price, price_fits};

// The most points of a page.
pub const POINTS: usize = 8;

// A cell is a signed number of 32 bits, its low byte first.
pub const CELL_BYTES: usize = 4;

// The cells of one hour: 30 days of 4 bytes.
pub const HOUR_BYTES: usize = DAYS as usize * CELL_BYTES;

// The cells of one point: 24 hours of 120 bytes.
pub const STRETCH_BYTES: usize = HOURS as usize * HOUR_BYTES;

// The bytes are the file's own: a cell is read when it is asked for.
#[derive(Clone, Copy)]
pub struct Page<'a> {
    bytes: &'a [u8],
    label: Label,
}

impl<'a> Page<'a> {
    pub fn new(bytes: &'a [u8], label: Label) -> Page<'a>
        ensures bytes { result.bytes.now ≡ bytes.now }
        ensures label { result.label ≡ label }
    {
        Page { bytes, label }
    }
}

// A point for each full stretch; what is left over holds none.
fn points_in(len: usize) -> usize
    ensures { result ≡ points_in len }
{
    POINTS.min(len / STRETCH_BYTES)
}

fn place_of(point: Point, hour: Hour, day: u8) -> usize
    requires first_point { 1 ≤ point }
    requires last_point { point ≤ 8 }
    requires first_hour { 1 ≤ hour }
    requires last_hour { hour ≤ 24 }
    requires first_day { 1 ≤ day }
    requires last_day { day ≤ 30 }
    ensures { result ≡ place_of point hour day }
{
    STRETCH_BYTES * (point as usize - 1)
        + HOUR_BYTES * (hour as usize - 1)
        + CELL_BYTES * (day as usize - 1)
}

// The one number that this crate reads. A crate that held it and the numbers of day files would hold nothing else,
// and be no plainer.
fn cell_at(bytes: &[u8], at: usize) -> i32
    requires { at + 4 ≤ length bytes.now }
    ensures { result ≡ cell_at bytes.now at }
{
    i32::from_le_bytes([bytes[at], bytes[at + 1], bytes[at + 2], bytes[at + 3]])
}

impl<'a> Record for Page<'a> {
    ghost meaning = { λ s p. page_entry s.label s.bytes.now p };

    ghost ranged = { λ s p. page_ranged s.label s.bytes.now p };

    fn ask(&self, point: Point, hour: Hour, day: u8) -> Result<Option<Price>, RecordFault> {
        if point < 1 || points_in(self.bytes.len()) < point as usize {
            return Err(RecordFault {
                label: self.label,
                point,
                hour,
            });
        }
        if !on_calendar(hour, day) {
            return Ok(None);
        }
        let cell = cell_at(self.bytes, place_of(point, hour, day));
        Ok(price_fits(cell).then_some(cell))
    }
}
