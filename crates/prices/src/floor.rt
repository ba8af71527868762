// A floor: a record whose negative values are turned into 0.
ghost use Rattle.std.specs.Prelude.{◌≡◌};
ghost use Rattle.prices.specs.Differences.{floored};
ghost use Rattle.prices.specs.Ranges.{floored_ranged};

use crate::fault::RecordFault;
use crate::record::Record;
use market::units::{Hour, Point, Price};

#[derive(Clone, Copy)]
pub struct Floor<R> {
    inner: R,
}

impl<R> Floor<R> {
    pub fn new(inner: R) -> Floor<R>
        ensures { result.inner ≡ inner }
    {
        Floor { inner }
    }
}

impl<R: Record> Record for Floor<R> {
    ghost meaning = { λ s p. floored (R.Record.meaning s.inner p) };

    ghost ranged = { λ s p. floored_ranged (R.Record.meaning s.inner p) (R.Record.ranged s.inner p) };

    fn ask(&self, point: Point, hour: Hour, day: u8) -> Result<Option<Price>, RecordFault> {
        let held = self.inner.ask(point, hour, day)?;
        Ok(held.map(|value| value.max(0)))
    }
}
