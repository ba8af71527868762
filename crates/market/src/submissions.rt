// Making a submission from raw figures and bare steps.
ghost use Rattle.std.specs.Prelude.{◌≡◌};
ghost use Rattle.std.specs.Option.{ok_or};
ghost use Rattle.market.specs.declared.refusal.Refusal.TheVariants as Refusal;
ghost use Rattle.market.specs.Submissions.{named, suits, side_of, kind_of};
ghost use Rattle.market.specs.Making.{submission_of};

use crate::curve::Curve;
use crate::kind::{Figures, Kind};
use crate::refusal::Refusal;
use crate::step::{Side, Step};
use crate::submission::Submission;
use crate::units::{HOURS, QSES};

impl Figures {
    fn fit(self) -> bool
        ensures { result ≡ named self.number self.qse self.hour }
    {
        1 <= self.number && (1..=QSES).contains(&self.qse) && (1..=HOURS).contains(&self.hour)
    }
}

// The kind that figures name, if any. One point has neither a sink nor a claim.
impl TryFrom<Figures> for Kind {
    type Error = Refusal;

    ghost try_from_gives = { λ f r. r ≡ ok_or (kind_of f) Refusal.KindUnfit };

    fn try_from(f: Figures) -> Result<Kind, Refusal> {
        let alone = f.sink == 0 && f.claim == 0;
        match f.kind {
            1 if alone => Ok(Kind::EnergyBid { point: f.source }),
            2 if alone => Ok(Kind::EnergyOnlyOffer { point: f.source }),
            3 if alone => Ok(Kind::ThreePartOffer { point: f.source }),
            4 => Ok(Kind::PointToPoint {
                source: f.source,
                sink: f.sink,
                claim: f.claim,
            }),
            _ => Err(Refusal::KindUnfit),
        }
    }
}

impl Kind {
    // Whether it may have such a path, such a claim and so many steps.
    fn suits(self, count: usize) -> bool
        ensures { result ≡ suits self count }
    {
        match self {
            Kind::PointToPoint {
                source,
                sink,
                claim,
            } => source != sink && claim <= 1 && count == 1,
            _ => true,
        }
    }

    // A method: `From` would not say what the side of a kind is for, and be no plainer.
    fn side(self) -> Side
        ensures { result ≡ side_of self }
    {
        match self {
            Kind::EnergyBid { .. } | Kind::PointToPoint { .. } => Side::Bid,
            Kind::EnergyOnlyOffer { .. } | Kind::ThreePartOffer { .. } => Side::Offer,
        }
    }
}

impl Submission {
    pub fn make(figures: Figures, steps: &[Step]) -> Result<Submission, Refusal>
        ensures { result ≡ submission_of figures steps.now }
    {
        if !figures.fit() {
            return Err(Refusal::FiguresUnfit);
        }
        let kind = Kind::try_from(figures)?;
        if !kind.suits(steps.len()) {
            return Err(Refusal::KindUnfit);
        }
        let curve = Curve::make(kind.side(), steps)?;
        Ok(Submission {
            number: figures.number,
            qse: figures.qse,
            hour: figures.hour,
            kind,
            curve,
        })
    }
}
