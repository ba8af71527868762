// A congestion right that expires with the operating day.
use crate::units::{Hour, Point, Tenths};

// The most rights that a book holds, and a day file states.
pub const MOST_RIGHTS: usize = 200;

// A path from source to sink at one hour.
#[derive(Clone, Copy, PartialEq, Eq, Debug, Default)]
pub struct PathHour {
    pub source: Point,
    pub sink: Point,
    pub hour: Hour,
}

// The tenths that the counter-party holds on a path at an hour.
#[derive(Clone, Copy, PartialEq, Eq, Debug, Default)]
pub struct Right {
    pub path: PathHour,
    pub tenths: Tenths,
}
