// A spread: one record minus another, at the same point, hour and day.
ghost use Rattle.std.specs.Prelude.{◌≡◌};
ghost use Rattle.prices.specs.Differences.{minus};
ghost use Rattle.prices.specs.Ranges.{minus_ranged};

use crate::difference::difference;
use crate::fault::RecordFault;
use crate::record::Record;
use market::units::{Hour, Point, Price};

#[derive(Clone, Copy)]
pub struct Spread<A, B> {
    first: A,
    second: B,
}

impl<A, B> Spread<A, B> {
    pub fn new(first: A, second: B) -> Spread<A, B>
        ensures first { result.first ≡ first }
        ensures second { result.second ≡ second }
    {
        Spread { first, second }
    }
}

impl<A: Record, B: Record> Record for Spread<A, B> {
    ghost meaning = { λ s p. minus (A.Record.meaning s.first p) (B.Record.meaning s.second p) };

    ghost ranged = { λ s p. minus_ranged (A.Record.meaning s.first p) (B.Record.meaning s.second p) };

    fn ask(&self, point: Point, hour: Hour, day: u8) -> Result<Option<Price>, RecordFault> {
        let first = self.first.ask(point, hour, day)?;
        let second = self.second.ask(point, hour, day)?;
        Ok(difference(first, second))
    }
}
