// The fault of a rule that values no submission.
ghost use Rattle.std.specs.Prelude.{◌≡◌};
ghost use Rattle.exposure.specs.declared.fault.RuleFault.TheVariants as fault;
ghost use Rattle.exposure.specs.Faults.{fault_number};

use market::units::{Hour, Point};
use prices::fault::RecordFault;

#[derive(Clone, Copy, PartialEq, Eq, Debug)]
pub enum RuleFault {
    // A price record does not know a point.
    UnknownPoint(RecordFault),
    // A percentile, by its letter, has no days to rank at a point and an hour. The letter is a char by a rule of
    // the project: letters stand for percentiles.
    NoDays {
        letter: char,
        point: Point,
        hour: Hour,
    },
    // More tenths are covered than the submission has.
    CoverAboveQuantity,
}

impl RuleFault {
    // A case that brings something has no discriminant, so the numbers stand here and not in the enum.
    pub fn number(self) -> u8
        ensures { result ≡ fault_number self }
    {
        match self {
            RuleFault::UnknownPoint(_) => 1,
            RuleFault::NoDays { .. } => 2,
            RuleFault::CoverAboveQuantity => 3,
        }
    }
}

// A record's fault, with its label, point and hour.
impl From<RecordFault> for RuleFault {
    ghost from_gives = { λ f r. r ≡ fault.UnknownPoint f };

    fn from(fault: RecordFault) -> RuleFault {
        RuleFault::UnknownPoint(fault)
    }
}
