// Making a curve: the tests of its rules, and the refusal of what breaks one.
ghost use Rattle.std.specs.Prelude.{◌≡◌, ◌≤◌, length};
ghost use Rattle.market.specs.Curves.{step_fits, follows, lawful};
ghost use Rattle.market.specs.Making.{padded, curve_of};

use crate::curve::Curve;
use crate::refusal::Refusal;
use crate::step::{Side, Step};
use crate::units::{MOST_QUANTITY, MOST_STEPS, price_fits};

fn step_fits(step: Step) -> bool
    ensures { result ≡ step_fits step }
{
    (1..=MOST_QUANTITY).contains(&step.quantity) && price_fits(step.price)
}

// One match on both: `is_none_or` over a match on the side would be no plainer.
fn goes_on(side: Side, last: Option<Step>, next: Step) -> bool
    ensures { result ≡ follows side last next }
{
    match (side, last) {
        (_, None) => true,
        (Side::Bid, Some(last)) => last.quantity < next.quantity && next.price <= last.price,
        (Side::Offer, Some(last)) => last.quantity < next.quantity && last.price <= next.price,
    }
}

fn keeps_rules(side: Side, steps: &[Step]) -> bool
    ensures { result ≡ lawful side steps.now }
{
    if steps.len() < 1 || steps.len() > MOST_STEPS {
        return false;
    }
    let mut last = None;
    for step in steps {
        if !step_fits(*step) || !goes_on(side, last, *step) {
            return false;
        }
        last = Some(*step);
    }
    true
}

// The steps from the first place on, and blank steps behind them.
fn packed(steps: &[Step]) -> [Step; MOST_STEPS]
    requires { length steps.now ≤ 10 }
    ensures { result ≡ padded steps.now }
{
    let mut held = [Step::default(); MOST_STEPS];
    held[..steps.len()].copy_from_slice(steps);
    held
}

impl Curve {
    pub(crate) fn make(side: Side, steps: &[Step]) -> Result<Curve, Refusal>
        ensures { result ≡ curve_of side steps.now }
    {
        if !keeps_rules(side, steps) {
            return Err(Refusal::CurveUnfit);
        }
        Ok(Curve {
            side,
            steps: packed(steps),
            count: steps.len(),
        })
    }

    // A curve to buy, of exactly these steps. It and `offer` are `make` under the words of the trade: a side as an
    // argument would be one more thing to mistake where a curve is made.
    pub fn bid(steps: &[Step]) -> Result<Curve, Refusal>
        ensures { result ≡ curve_of Side.Bid steps.now }
    {
        Curve::make(Side::Bid, steps)
    }

    // A curve to sell, of exactly these steps.
    pub fn offer(steps: &[Step]) -> Result<Curve, Refusal>
        ensures { result ≡ curve_of Side.Offer steps.now }
    {
        Curve::make(Side::Offer, steps)
    }
}
