// The exposure of each kind. Each contract states the bound of its result: callers take a plain i64, and a type of grains
// would be opened wherever it came.
ghost use Rattle.std.specs.Prelude.{◌≡◌, ◌≤◌, IfSome, if◌then◌else◌, Some, None, nat_lt};
ghost use Rattle.market.specs.Bounds.{Bounded};
ghost use Rattle.market.specs.Orders.{Fit};
ghost use Rattle.market.specs.Reading.{steps_of, last_of};
ghost use Rattle.formulas.specs.Kinds.{bid_step, energy_bid, Greatest, energy_only_offer, three_part_offer, path_step};

use crate::blocks::{EnergyOnly, ThreePart, over_blocks};
use crate::factors::Factors;
use crate::figure::Figure;
use crate::grains::{in_grains, of_tenths, weighted};
use market::curve::Curve;
use market::step::Step;
use market::units::Tenths;

// What a step of an energy bid gives: nothing where its price is not above 0. That a step fits is what its curve
// promises: a step alone is any two figures, since callers make it.
fn bid_step(factors: Factors, d: Figure, step: Step) -> i64
    requires { Fit 0 step }
    ensures value { result ≡ bid_step factors.e1 d.cents step }
    ensures size { Bounded 100000000000000 result }
{
    if step.price <= 0 {
        return 0;
    }
    let lesser = d.cents.min(step.price);
    let rate = weighted(100, lesser) + weighted(factors.e1, step.price - lesser);
    of_tenths(rate.max(0), step.quantity)
}

// An energy bid, with d the figure of the day-ahead price.
pub fn energy_bid(curve: &Curve, factors: Factors, d: Figure) -> i64
    ensures value { result ≡ energy_bid factors.e1 d.cents (steps_of curve.now) }
    ensures words { Greatest (bid_step factors.e1 d.cents) (steps_of curve.now) result }
    ensures size { Bounded 100000000000000 result }
{
    let steps = curve.steps();
    let mut top: i64 = 0;
    for step in steps {
        top = top.max(bid_step(factors, d, *step));
    }
    top
}

// An energy-only offer, with a and b figures of the day-ahead price, and s that of its shortfall.
pub fn energy_only_offer(curve: &Curve, factors: Factors, a: Figure, b: Figure, s: Figure) -> i64
    ensures value { result ≡ energy_only_offer factors.e2 factors.e3 a.cents b.cents s.cents (steps_of curve.now) }
    ensures size { Bounded 100000000000000 result }
{
    over_blocks(&EnergyOnly { factors, a, b, s }, curve.steps())
}

// A three-part offer, with y and z figures of the day-ahead price.
pub fn three_part_offer(curve: &Curve, y: Figure, z: Figure) -> i64
    ensures value { result ≡ three_part_offer y.cents z.cents (steps_of curve.now) }
    ensures size { Bounded 100000000000000 result }
{
    over_blocks(&ThreePart { y, z }, curve.steps())
}

fn path_step(step: Step, w: Figure, cover: Tenths) -> i64
    requires fit { Fit 0 step }
    requires covered { cover ≤ step.quantity }
    ensures value { result ≡ path_step w.cents cover step }
    ensures size { Bounded 100000000000000 result }
{
    let paid = in_grains(100, step.price.max(0) + w.cents, step.quantity);
    if step.price > 0 {
        paid - in_grains(90, step.price, cover)
    } else {
        paid
    }
}

// A point-to-point bid, with w the figure of its path's price; none where the cover is above the quantity.
pub fn point_to_point(curve: &Curve, w: Figure, cover: Tenths) -> Option<i64>
    ensures value { result ≡ (if nat_lt (last_of curve.now).quantity cover then None else Some (path_step w.cents cover (last_of curve.now))) }
    ensures size { IfSome result (λ x. Bounded 100000000000000 x) }
{
    let step = curve.last();
    (cover <= step.quantity).then(|| path_step(step, w, cover))
}
