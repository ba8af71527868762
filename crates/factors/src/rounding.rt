// Rounding a ratio to hundredths.
ghost use Rattle.std.specs.Prelude.{◌≡◌, ◌≤◌};
ghost use Rattle.factors.specs.Ratios.{in_hundredths};

use crate::ratio::Ratio;

// Halves go up: 100 r + 1/2 is (200 top + bottom)/(2 bottom), rounded down.
pub(crate) fn in_hundredths(ratio: Ratio) -> u8
    ensures value { result ≡ in_hundredths ratio }
    ensures most { result ≤ 100 }
{
    let top = ratio.top as u64;
    let bottom = ratio.bottom as u64;
    ((200 * top + bottom) / (2 * bottom)) as u8
}
