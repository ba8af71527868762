// Products of factors, cents and tenths, which are grains. What they may be are premises and no types: the figures come
// from factors, literals, prices, steps and blocks, and a type would be made for each product and opened in it.
ghost use Rattle.std.specs.Prelude.{◌≡◌, ℕ, ◌*◌, ◌≤◌, pos, ◌*ℤ◌};
ghost use Rattle.market.specs.Bounds.{Bounded};
ghost use Rattle.formulas.specs.Kinds.{grains};

use market::units::{Price, Tenths};

// Hundredths times cents.
pub(crate) fn weighted(factor: u8, cents: Price) -> i64
    requires factor { factor ≤ 100 }
    requires cents { Bounded 5000000 cents }
    ensures value { result ≡ pos factor *ℤ cents }
    ensures size { Bounded 500000000 result }
{
    factor as i64 * cents as i64
}

// A price in hundredths of a cent, times tenths.
pub(crate) fn of_tenths(price: i64, tenths: Tenths) -> i64
    requires price { Bounded 1000000000 price }
    requires tenths { tenths ≤ 100000 }
    ensures value { result ≡ price *ℤ pos tenths }
    ensures size { (k : ℕ) → Bounded k price → Bounded (k * tenths) result }
{
    price * tenths as i64
}

pub(crate) fn in_grains(factor: u8, cents: Price, tenths: Tenths) -> i64
    requires factor { factor ≤ 100 }
    requires cents { Bounded 5000000 cents }
    requires tenths { tenths ≤ 100000 }
    ensures value { result ≡ grains factor cents tenths }
    ensures size { Bounded (500000000 * tenths) result }
{
    of_tenths(weighted(factor, cents), tenths)
}
