// Days that have a ratio, or none where a figure is out of range.
ghost use Rattle.std.specs.Prelude.{◌≡◌, Option};
ghost use Rattle.factors.specs.declared.ratio.Ratio.{Ratio};
ghost use Rattle.factors.specs.Days.{first_ratio, second_ratio};

use crate::days::{Dollars, Quantities};
use crate::ratio::Ratio;

// The two differ in their ratio and in its test, and so in more than a type.
pub(crate) trait Rated: Copy {
    ghost rating: { Self → Option Ratio };

    fn ratio(&self) -> Option<Ratio>
        ensures { result ≡ rating self.now };
}

impl Rated for Dollars {
    ghost rating = { first_ratio };

    fn ratio(&self) -> Option<Ratio> {
        self.fit().then(|| self.first())
    }
}

impl Rated for Quantities {
    ghost rating = { second_ratio };

    fn ratio(&self) -> Option<Ratio> {
        self.fit().then(|| self.second())
    }
}
