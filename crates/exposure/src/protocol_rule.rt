// The protocol rule over any day-ahead and any real-time record.
ghost use Rattle.exposure.specs.Protocol.{protocol_worth};
ghost use Rattle.exposure.specs.ProtocolBounds.{protocol_within};

use crate::fault::RuleFault;
use crate::protocol::Protocol;
use crate::rule::Rule;
use market::kind::Kind;
use market::submission::Submission;
use market::units::Tenths;
use prices::record::Record;

impl<D: Record, T: Record> Rule for Protocol<D, T> {
    ghost worth = { λ x s cover. protocol_worth (D.Record.meaning x.day_ahead) (T.Record.meaning x.real_time) x.factors s cover };

    ghost within = { λ x s cover. protocol_within (D.Record.meaning x.day_ahead) (T.Record.meaning x.real_time) (D.Record.ranged x.day_ahead) (T.Record.ranged x.real_time) x.factors s cover };

    fn value(&mut self, submission: &Submission, cover: Tenths) -> Result<i64, RuleFault> {
        if cover > submission.curve().last().quantity {
            return Err(RuleFault::CoverAboveQuantity);
        }
        match submission.kind() {
            Kind::EnergyBid { point } => self.energy_bid(submission, point),
            Kind::EnergyOnlyOffer { point } => self.energy_only_offer(submission, point),
            Kind::ThreePartOffer { point } => self.three_part_offer(submission, point),
            Kind::PointToPoint { source, sink, .. } => {
                self.point_to_point(submission, source, sink, cover)
            }
        }
    }
}
