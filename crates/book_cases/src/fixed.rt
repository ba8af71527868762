// A rule of one value, for examples that need an exposure to the grain.
ghost use Rattle.std.specs.Prelude.{pos, negsuc, ◌≤ℤ◌};

#[derive(Clone, Copy)]
pub struct Fixed {
    pub(crate) grains: i64,
    ghost low: { negsuc 9999 ≤ℤ grains },
    ghost high: { grains ≤ℤ pos 10000 },
}
