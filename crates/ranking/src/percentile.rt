// The percentile of the elements present among some days.
ghost use Rattle.std.specs.Prelude.{◌≡◌, ◌≤◌, length};
ghost use Rattle.ranking.specs.Counts.{present, share};
ghost use Rattle.ranking.specs.Percentile.{Percentile};
ghost use Rattle.ranking.specs.Answer.{percentile_of};

use crate::fault::NoDays;
use crate::order::Ordered;

// How many days have an element.
#[tactic(auto, using(crate::proofs::Tallies::present_counts))]
fn count_present<E: Copy>(days: &[Option<E>]) -> usize
    ensures is { result ≡ present days.now }
    ensures bound { result ≤ length days.now }
{
    days.iter().filter(|day| day.is_some()).count()
}

// p percent of n, rounded up. The product p * n need not fit, so the hundreds of n go apart.
fn share_of(p: u8, n: usize) -> usize
    requires { p ≤ 100 }
    ensures { result ≡ share p n }
{
    let hundreds = n / 100;
    let rest = n % 100;
    hundreds * p as usize + (rest * p as usize).div_ceil(100)
}

// The least element present such that at least `share_of(p, n)` of the n present do not come after
// it; among equals, the earliest day's. A candidate is that one if it reaches so many and fewer
// come before it. Both loops and their tallies are a rule of the project: the counted days are gone through for each
// candidate, and the block is left by the answer.
pub fn percentile<E: Ordered>(days: &[Option<E>], p: u8) -> Result<E, NoDays>
    ensures is { result ≡ percentile_of E.upto days.now p }
    ensures means { Percentile E.upto days.now p result }
{
    if p < 1 || 100 < p {
        return Err(NoDays);
    }
    let n = count_present(days);
    if n == 0 {
        return Err(NoDays);
    }
    let k = share_of(p, n);
    'answer: {
        for day in days {
            let Some(candidate) = *day else {
                continue;
            };
            let mut reached = 0;
            let mut before = 0;
            for counted in days {
                if let Some(other) = *counted {
                    if other.not_after(&candidate) {
                        reached += 1;
                    }
                    if !candidate.not_after(&other) {
                        before += 1;
                    }
                }
            }
            if k <= reached && before < k {
                break 'answer Ok(candidate);
            }
        }
        Err(NoDays)
    }
}
