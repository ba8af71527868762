// The protocol rule, kind by kind: its figures in order, the first fault deciding, and its formula.
ghost use Rattle.std.specs.Prelude.{◌≡◌};
ghost use Rattle.exposure.specs.Protocol.{bid_worth, offer_worth, three_part_worth, path_worth};

use crate::fault::RuleFault;
use crate::figures::Asked;
use crate::protocol::Protocol;
use formulas::kinds::{energy_bid, energy_only_offer, point_to_point, three_part_offer};
use market::submission::Submission;
use market::units::{Point, Tenths};
use prices::floor::Floor;
use prices::path::Path;
use prices::record::Record;
use prices::spread::Spread;

// The 90th percentile of what real-time prices have above day-ahead prices.
const SHORTFALL_PERCENT: u8 = 90;

impl<D: Record, T: Record> Protocol<D, T> {
    pub(crate) fn energy_bid(&self, submission: &Submission, point: Point) -> Result<i64, RuleFault>
        ensures { result ≡ bid_worth (D.Record.meaning self.now.day_ahead) self.now.factors submission.now.curve point submission.now.hour }
    {
        let ahead = Asked {
            record: &self.day_ahead,
            point,
            hour: submission.hour(),
        };
        let d = ahead.lettered('d')?;
        Ok(energy_bid(&submission.curve(), self.factors, d))
    }

    pub(crate) fn energy_only_offer(
        &self,
        submission: &Submission,
        point: Point,
    ) -> Result<i64, RuleFault>
        ensures { result ≡ offer_worth (D.Record.meaning self.now.day_ahead) (T.Record.meaning self.now.real_time) self.now.factors submission.now.curve point submission.now.hour }
    {
        let hour = submission.hour();
        let ahead = Asked {
            record: &self.day_ahead,
            point,
            hour,
        };
        let a = ahead.lettered('a')?;
        let b = ahead.lettered('b')?;
        let spread = Spread::new(self.real_time, self.day_ahead);
        let floor = Floor::new(spread);
        let shortfall = Asked {
            record: &floor,
            point,
            hour,
        };
        let s = shortfall.figure('s', Some(SHORTFALL_PERCENT))?;
        Ok(energy_only_offer(&submission.curve(), self.factors, a, b, s))
    }

    pub(crate) fn three_part_offer(
        &self,
        submission: &Submission,
        point: Point,
    ) -> Result<i64, RuleFault>
        ensures { result ≡ three_part_worth (D.Record.meaning self.now.day_ahead) submission.now.curve point submission.now.hour }
    {
        let ahead = Asked {
            record: &self.day_ahead,
            point,
            hour: submission.hour(),
        };
        let y = ahead.lettered('y')?;
        let z = ahead.lettered('z')?;
        Ok(three_part_offer(&submission.curve(), y, z))
    }

    pub(crate) fn point_to_point(
        &self,
        submission: &Submission,
        source: Point,
        sink: Point,
        cover: Tenths,
    ) -> Result<i64, RuleFault>
        ensures { result ≡ path_worth (T.Record.meaning self.now.real_time) submission.now.curve source sink submission.now.hour cover }
    {
        let path = Path::new(self.real_time, source, sink);
        let floor = Floor::new(path);
        let floored = Asked {
            record: &floor,
            point: source,
            hour: submission.hour(),
        };
        let w = floored.lettered('u')?;
        point_to_point(&submission.curve(), w, cover).ok_or(RuleFault::CoverAboveQuantity)
    }
}
