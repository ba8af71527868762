// Figures: percentiles of what a record has at a point and an hour over thirty days.
ghost use Rattle.std.specs.Prelude.{◌≡◌};
ghost use Rattle.std.specs.Option.{unwrap_or};
ghost use Rattle.exposure.specs.Figures.{gathered, figure_at, lettered_at, in_cents};

use crate::fault::RuleFault;
use formulas::figure::Figure;
use market::units::{Hour, Point, Price};
use prices::fault::RecordFault;
use prices::range::DAYS;
use prices::record::Record;
use ranking::letters::percent_of;
use ranking::percentile::percentile;

// A record at a point and an hour. It is asked by letters, which are chars as the faults have them. The record is
// lent, since one that holds its prices is long to copy.
#[derive(Clone, Copy)]
pub(crate) struct Asked<'a, R> {
    pub(crate) record: &'a R,
    pub(crate) point: Point,
    pub(crate) hour: Hour,
}

impl<'a, R: Record> Asked<'a, R> {
    // What the thirty days have. No heap: the array has room for each. The day is what is asked, and its place
    // follows from it.
    fn gather(&self) -> Result<[Option<Price>; DAYS as usize], RecordFault>
        ensures { result ≡ gathered (R.Record.meaning self.now.record.now self.now.point) self.now.hour }
    {
        let mut days = [None; DAYS as usize];
        for day in 1..=DAYS {
            days[day as usize - 1] = self.record.ask(self.point, self.hour, day)?;
        }
        Ok(days)
    }

    // The percentile of the thirty days; without any, or without a percentile, the fault names the letter,
    // the point and the hour.
    pub(crate) fn figure(&self, letter: char, percent: Option<u8>) -> Result<Figure, RuleFault>
        ensures { in_cents result ≡ figure_at (R.Record.meaning self.now.record.now self.now.point) letter (unwrap_or percent 0) self.now.point self.now.hour }
    {
        let days = self.gather()?;
        let none = RuleFault::NoDays {
            letter,
            point: self.point,
            hour: self.hour,
        };
        let percent = percent.ok_or(none)?;
        let cents = percentile(&days, percent).or(Err(none))?;
        Ok(Figure { cents })
    }

    // The percentile that the letter stands for.
    pub(crate) fn lettered(&self, letter: char) -> Result<Figure, RuleFault>
        ensures { in_cents result ≡ lettered_at (R.Record.meaning self.now.record.now self.now.point) letter self.now.point self.now.hour }
    {
        self.figure(letter, percent_of(letter))
    }
}
