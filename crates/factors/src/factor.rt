// The factors, each a percentile of the ratios of some days.
ghost use Rattle.std.specs.Prelude.{◌≡◌, ◌≤◌, map, length, take};
ghost use Rattle.factors.specs.Factors.{factor_of, default_e1, favourable_e1, default_e2, favourable_e2, e3_for_all};

use crate::days::{Dollars, Quantities};
use crate::rated::Rated;
use crate::ratio::Ratio;
use crate::rounding::in_hundredths;
use ranking::fault::NoDays;
use ranking::percentile::percentile;

// The 30 days of a factor, which are another rule's than the 30 of a price record.
pub const MOST_DAYS: usize = 30;

// The days' ratios, from the first place on. No heap: the array has room for the most days. To fill it by
// `iter_mut().zip(days)` and by `array::from_fn` was tried, and neither proof closed: the one lends the places, whose
// end the loop doesn't know, and the other hides what its closure has read.
fn gathered<D: Rated>(days: &[D]) -> [Option<Ratio>; MOST_DAYS]
    requires { length days.now ≤ 30 }
    ensures { take (length days.now) result ≡ map D.rating days.now }
{
    let mut ratios = [None; MOST_DAYS];
    for (d, day) in days.iter().enumerate() {
        ratios[d] = day.ratio();
    }
    ratios
}

// The percentile p of the days' ratios, in hundredths.
fn factor<D: Rated>(days: &[D], p: u8) -> Result<u8, NoDays>
    ensures { result ≡ factor_of D.rating days.now p }
{
    if days.len() < 1 || MOST_DAYS < days.len() {
        return Err(NoDays);
    }
    let ratios = gathered(days);
    let ratio = percentile(&ratios[..days.len()], p)?;
    Ok(in_hundredths(ratio))
}

// The 95th percentile of the first ratio. This and the next two are `factor` under the names that callers know: a
// percentile as an argument would let a wrong one in, and be no plainer.
pub fn default_e1(days: &[Dollars]) -> Result<u8, NoDays>
    ensures { result ≡ default_e1 days.now }
{
    factor(days, 95)
}

// The 75th percentile of the first ratio.
pub fn favourable_e1(days: &[Dollars]) -> Result<u8, NoDays>
    ensures { result ≡ favourable_e1 days.now }
{
    factor(days, 75)
}

// 0, whatever the days.
pub fn default_e2() -> u8
    ensures { result ≡ default_e2 }
{
    0
}

// The 25th percentile of the second ratio.
pub fn favourable_e2(days: &[Quantities]) -> Result<u8, NoDays>
    ensures { result ≡ favourable_e2 days.now }
{
    factor(days, 25)
}

// The whole, by default and otherwise.
pub fn e3() -> u8
    ensures { result ≡ e3_for_all }
{
    100
}
