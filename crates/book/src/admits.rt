// The tests of a total.
ghost use Rattle.std.specs.Prelude.{◌≡◌};
ghost use Rattle.market.specs.Bounds.{Bounded};
ghost use Rattle.history.specs.Answers.{beyond, over};

// In grains: 10^17.
const MOST_TOTAL: i64 = 100_000_000_000_000_000;

pub(crate) fn out_of_range(total: i64) -> bool
    ensures { result ≡ beyond total }
{
    !(-MOST_TOTAL..=MOST_TOTAL).contains(&total)
}

// Whether a change of the total would raise it, and past the limit.
pub(crate) fn passes(limit: i64, total: i64, change: i64) -> bool
    requires total { Bounded 1000000000000000000 total }
    requires change { Bounded 1000000000000000000 change }
    ensures { result ≡ over limit total change }
{
    change > 0 && total + change > limit
}
