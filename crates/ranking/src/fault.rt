// What a percentile answers where there is nothing to rank.
ghost use Rattle.std.specs.Prelude.{◌≡◌};
ghost use Rattle.ranking.specs.Numbers.{number_of};

// No element is present, or the percentile asked for is none of 1 to 100.
#[derive(Clone, Copy, PartialEq, Eq, Debug)]
pub struct NoDays;

impl NoDays {
    // A struct has no cases, and so no discriminant.
    pub fn number(self) -> u8
        ensures { result ≡ number_of self }
    {
        15
    }
}
