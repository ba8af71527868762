// Ratios compare by cross-multiplication, so that none is rounded before it is ranked. Equal ones have
// equal values, 1/2 is 2/4, and so no derive compares them.
ghost use Rattle.std.specs.Prelude.{refl};
ghost use Rattle.std.specs.Cmp.{partial_equiv_from_equiv, partial_order_from_agreeing_total};
ghost use Rattle.std.specs.Ordering.{as_partial_cmp, eq_by_cmp};
ghost use Rattle.std.proofs.lemmas.Cmp.{eq_by_cmp_equiv};
ghost use Rattle.factors.specs.Ratios.{crossed};
ghost use Rattle.factors.specs.Crossing.{crossed_total};

use crate::ratio::Ratio;
use ranking::order::ByOrd;
use std::cmp::Ordering;

impl PartialEq for Ratio {
    ghost eq = { eq_by_cmp crossed };

    ghost laws = { partial_equiv_from_equiv (eq_by_cmp_equiv crossed_total) };

    fn eq(&self, other: &Ratio) -> bool {
        self.cmp(other).is_eq()
    }
}

impl Eq for Ratio {
    ghost laws = { eq_by_cmp_equiv crossed_total };
}

impl PartialOrd for Ratio {
    ghost partial_cmp = { as_partial_cmp crossed };

    ghost laws = { partial_order_from_agreeing_total crossed crossed_total (λ x y. refl) (λ x y. refl) };

    fn partial_cmp(&self, other: &Ratio) -> Option<Ordering> {
        Some(self.cmp(other))
    }
}

impl Ord for Ratio {
    ghost cmp = { crossed };

    ghost total = { crossed_total };

    ghost matches_partial_cmp = { λ x y. refl };

    ghost matches_eq = { λ x y. refl };

    fn cmp(&self, other: &Ratio) -> Ordering {
        let this = self.top as u64 * other.bottom as u64;
        let that = other.top as u64 * self.bottom as u64;
        this.cmp(&that)
    }
}

impl ByOrd for Ratio {}
