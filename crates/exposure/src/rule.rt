// The rule interface: what a submission is worth at a cover.
ghost use Rattle.std.specs.Prelude.{◌≡◌, ℕ, ℤ, Result};
ghost use Rattle.market.specs.declared.submission.Submission.{Submission as Submitted};
ghost use Rattle.exposure.specs.declared.fault.RuleFault.{RuleFault as Fault};
ghost use Rattle.exposure.specs.Worth.{Within};

use crate::fault::RuleFault;
use market::submission::Submission;
use market::units::Tenths;

// `worth` is the meaning of a rule: from a submission and its covered tenths to grains, or to a fault.
// `within` shows that the grains lie within 10^14 of 0. Asking keeps the meaning, and each function that hands a
// rule on says so too: no type says of a `&mut` what stays.
pub trait Rule {
    ghost worth: { Self → Submitted → ℕ → Result ℤ Fault };

    ghost within: { (x : Self) (s : Submitted) (cover : ℕ) → Within (worth x s cover) };

    fn value(&mut self, submission: &Submission, cover: Tenths) -> Result<i64, RuleFault>
        ensures answer { result ≡ worth self.old submission.now cover }
        ensures kept { worth self.new ≡ worth self.old };
}
