// A path: what a record has at the source minus what it has at the sink.
ghost use Rattle.std.specs.Prelude.{◌≡◌};
ghost use Rattle.prices.specs.Differences.{minus};
ghost use Rattle.prices.specs.Ranges.{minus_ranged};

use crate::difference::difference;
use crate::fault::RecordFault;
use crate::record::Record;
use market::units::{Hour, Point, Price};

#[derive(Clone, Copy)]
pub struct Path<R> {
    inner: R,
    source: Point,
    sink: Point,
}

impl<R> Path<R> {
    pub fn new(inner: R, source: Point, sink: Point) -> Path<R>
        ensures inner { result.inner ≡ inner }
        ensures source { result.source ≡ source }
        ensures sink { result.sink ≡ sink }
    {
        Path {
            inner,
            source,
            sink,
        }
    }
}

// The same whichever point is asked. A spread asks two records at one point, and a path one record at two: what they
// share is `difference`, and one body for both would be no plainer.
impl<R: Record> Record for Path<R> {
    ghost meaning = { λ s p. minus (R.Record.meaning s.inner s.source) (R.Record.meaning s.inner s.sink) };

    ghost ranged = { λ s p. minus_ranged (R.Record.meaning s.inner s.source) (R.Record.meaning s.inner s.sink) };

    fn ask(&self, _point: Point, hour: Hour, day: u8) -> Result<Option<Price>, RecordFault> {
        let source = self.inner.ask(self.source, hour, day)?;
        let sink = self.inner.ask(self.sink, hour, day)?;
        Ok(difference(source, sink))
    }
}
