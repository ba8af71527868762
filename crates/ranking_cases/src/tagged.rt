// A price with the day that it is of: prices rank, and the day tells equal ones apart, in its own `Ord` too.
ghost use Rattle.std.specs.Prelude.{int_le};
ghost use Rattle.std.proofs.Common.{rules};

use ranking::order::Ordered;

#[derive(Clone, Copy, PartialEq, Eq, PartialOrd, Ord, Debug)]
pub struct Tagged {
    pub price: i32,
    pub day: u8,
}

impl Ordered for Tagged {
    ghost upto = { λ x y. int_le x.price y.price };

    ghost total = { Prim.search rules };

    fn not_after(&self, other: &Tagged) -> bool {
        self.price <= other.price
    }
}
