// Sums over the blocks of an offer.
ghost use Rattle.std.specs.Prelude.{◌≡◌, ℕ, ◌*◌, ◌≤◌, ℤ};
ghost use Rattle.market.specs.Bounds.{Bounded};
ghost use Rattle.market.specs.Orders.{Orderly};
ghost use Rattle.formulas.specs.Kinds.{over_blocks, offer_block, three_part_block, credit};

use crate::block::Block;
use crate::factors::Factors;
use crate::figure::Figure;
use crate::grains::in_grains;
use market::step::Step;

// What a block adds to the exposure of an offer. A trait, since a closure would leave the function that it
// computes, and that function's bound, to the clauses of `over_blocks` and of each closure.
pub(crate) trait Terms {
    ghost adds: { Self → ℤ → ℕ → ℤ };

    fn add(&self, block: Block) -> i64
        ensures value { result ≡ adds self.now block.price block.tenths }
        ensures size { Bounded (1000000000 * block.tenths) result };
}

#[derive(Clone, Copy)]
pub(crate) struct EnergyOnly {
    pub(crate) factors: Factors,
    pub(crate) a: Figure,
    pub(crate) b: Figure,
    pub(crate) s: Figure,
}

#[derive(Clone, Copy)]
pub(crate) struct ThreePart {
    pub(crate) y: Figure,
    pub(crate) z: Figure,
}

impl EnergyOnly {
    // A credit at a price above 0, and a charge at one below.
    fn credited(&self, block: Block) -> i64
        ensures value { result ≡ credit self.now.factors.e2 self.now.b.cents block.tenths }
        ensures size { Bounded (500000000 * block.tenths) result }
    {
        let b = self.b.cents;
        if b > 0 {
            -in_grains(self.factors.e2, b, block.tenths)
        } else if b < 0 {
            -in_grains(100, b, block.tenths)
        } else {
            0
        }
    }
}

impl Terms for EnergyOnly {
    ghost adds = { λ t p m. offer_block t.factors.e2 t.factors.e3 t.a.cents t.b.cents t.s.cents p m };

    fn add(&self, block: Block) -> i64 {
        let held = in_grains(self.factors.e3, self.s.cents, block.tenths);
        if block.price <= self.a.cents {
            held + self.credited(block)
        } else {
            held
        }
    }
}

impl Terms for ThreePart {
    ghost adds = { λ t p m. three_part_block t.y.cents t.z.cents p m };

    fn add(&self, block: Block) -> i64 {
        if block.price <= self.y.cents {
            -in_grains(100, self.z.cents, block.tenths)
        } else {
            0
        }
    }
}

pub(crate) fn over_blocks<B: Terms>(terms: &B, steps: &[Step]) -> i64
    requires { Orderly 0 steps.now }
    ensures value { result ≡ over_blocks (B.adds terms.now) 0 steps.now }
    ensures size { Bounded 100000000000000 result }
{
    let mut sum = 0;
    let mut before = 0;
    for step in steps {
        sum += terms.add(Block {
            price: step.price,
            tenths: step.quantity - before,
        });
        before = step.quantity;
    }
    sum
}
