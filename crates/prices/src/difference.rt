// The difference of two answers.
ghost use Rattle.std.specs.Prelude.{◌≡◌};
ghost use Rattle.prices.specs.Differences.{less};
ghost use Rattle.prices.specs.Entries.{Within};

use crate::range::value_fits;
use market::units::Price;

// Nothing where either is nothing, or where the difference is out of range.
pub(crate) fn difference(first: Option<Price>, second: Option<Price>) -> Option<Price>
    requires first { Within first }
    requires second { Within second }
    ensures { result ≡ less first second }
{
    let value = first? - second?;
    value_fits(value).then_some(value)
}
