// Making credit factors.
ghost use Rattle.std.specs.Prelude.{◌≡◌};
ghost use Rattle.formulas.specs.Factors.{factors_of};

use crate::factors::Factors;
use market::refusal::Refusal;

pub const MOST_FACTOR: u8 = 100;

impl Factors {
    // Each factor is from 0 to 100 hundredths.
    pub fn make(e1: u8, e2: u8, e3: u8) -> Result<Factors, Refusal>
        ensures { result ≡ factors_of e1 e2 e3 }
    {
        if e1.max(e2).max(e3) > MOST_FACTOR {
            return Err(Refusal::OutOfRange);
        }
        Ok(Factors { e1, e2, e3 })
    }
}
