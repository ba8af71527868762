// The rule of one value: every submission is worth it, at every cover up to its quantity.
ghost use Rattle.std.specs.Prelude.{◌≡◌};
ghost use Rattle.book_cases.specs.Fixed.{clamped, fixed_worth, fixed_within};

use crate::fixed::Fixed;
use exposure::fault::RuleFault;
use exposure::rule::Rule;
use market::submission::Submission;
use market::units::Tenths;

impl Fixed {
    // A value outside −10,000 to 10,000 is brought to the nearer end.
    pub fn new(grains: i64) -> Fixed
        ensures { result.grains ≡ clamped grains }
    {
        Fixed {
            grains: grains.clamp(-10_000, 10_000),
        }
    }
}

impl Rule for Fixed {
    ghost worth = { λ r s cover. fixed_worth r.grains s cover };

    ghost within = { λ r s cover. fixed_within r.grains r.low r.high s cover };

    fn value(&mut self, submission: &Submission, cover: Tenths) -> Result<i64, RuleFault> {
        if cover > submission.curve().last().quantity {
            return Err(RuleFault::CoverAboveQuantity);
        }
        Ok(self.grains)
    }
}
