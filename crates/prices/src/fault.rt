// The fault of a price record.
ghost use Rattle.std.specs.Prelude.{◌≡◌};
ghost use Rattle.prices.specs.Labels.{label_number};

use market::units::{Hour, Point};

// Which prices a record holds, by its number.
#[derive(Clone, Copy, PartialEq, Eq, Debug)]
pub enum Label {
    DayAhead = 1,
    RealTime = 2,
}

// The record so labelled does not know the point, asked at the hour.
#[derive(Clone, Copy, PartialEq, Eq, Debug)]
pub struct RecordFault {
    pub label: Label,
    pub point: Point,
    pub hour: Hour,
}

impl Label {
    pub fn number(self) -> u8
        ensures { result ≡ label_number self }
    {
        self as u8
    }
}
