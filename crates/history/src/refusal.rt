// What refuses a call of the book.
ghost use Rattle.std.specs.Prelude.{◌≡◌};
ghost use Rattle.history.specs.declared.refusal.Refusal.TheVariants as refusal;
ghost use Rattle.history.specs.Numbers.{number_of};

use exposure::fault::RuleFault;
use std::alloc::AllocError;

// `exposure` is the exposure of the submission, and `room` what is left of the limit before the call. The two refusals
// that bring them have numbers of their own, and one case with a call beside it would be no plainer.
#[derive(Clone, Copy, PartialEq, Eq, Debug)]
pub enum Refusal {
    NumberStands,
    RowsFull,
    NotStanding,
    Rule(RuleFault),
    SubmitOver { exposure: i64, room: i64 },
    WithdrawOver { exposure: i64, room: i64 },
    TotalOutOfRange,
    BatchOpen,
    NoBatch,
    LimitUnfit,
    RightsUnfit,
    NoMemory,
}

impl Refusal {
    // A case that brings something has no discriminant, so the numbers stand here and not in the enum.
    pub fn number(self) -> u8
        ensures { result ≡ number_of self }
    {
        match self {
            Refusal::NumberStands => 21,
            Refusal::RowsFull => 22,
            Refusal::NotStanding => 23,
            Refusal::Rule(_) => 24,
            Refusal::SubmitOver { .. } => 25,
            Refusal::WithdrawOver { .. } => 26,
            Refusal::TotalOutOfRange => 27,
            Refusal::BatchOpen => 31,
            Refusal::NoBatch => 32,
            Refusal::LimitUnfit => 33,
            Refusal::RightsUnfit => 41,
            Refusal::NoMemory => 53,
        }
    }
}

// A rule's fault, with all that it carries.
impl From<RuleFault> for Refusal {
    ghost from_gives = { λ f r. r ≡ refusal.Rule f };

    fn from(fault: RuleFault) -> Refusal {
        Refusal::Rule(fault)
    }
}

impl From<AllocError> for Refusal {
    ghost from_gives = { λ e r. r ≡ refusal.NoMemory };

    fn from(_: AllocError) -> Refusal {
        Refusal::NoMemory
    }
}
