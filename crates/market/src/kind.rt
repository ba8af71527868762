// What a submission asks for, and its figures before they are tested.
use crate::units::{Hour, Point, Qse};

// A claim is 1 where the bid draws on the counter-party's rights, else 0. It is a plain number by a rule of the
// project: a kind holds its points and its claim as files have them.
#[derive(Clone, Copy, PartialEq, Eq, Debug)]
pub enum Kind {
    EnergyBid {
        point: Point,
    },
    EnergyOnlyOffer {
        point: Point,
    },
    ThreePartOffer {
        point: Point,
    },
    PointToPoint {
        source: Point,
        sink: Point,
        claim: u8,
    },
}

// The figures of a submission as they come. The source is the point of a kind that has one point. Kind and claim
// are plain numbers by the same rule: an unfit one can be told, and is refused by its number.
#[derive(Clone, Copy, PartialEq, Eq, Debug)]
pub struct Figures {
    pub number: u32,
    pub qse: Qse,
    pub kind: u8,
    pub hour: Hour,
    pub source: Point,
    pub sink: Point,
    pub claim: u8,
}
