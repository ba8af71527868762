// What can be ranked: the elements of a total order.
ghost use Rattle.std.specs.Prelude.{◌≡◌, Bool};
ghost use Rattle.ranking.specs.Order.{TotalOrder, upto as compared, total as by_laws};

pub trait Ordered: Copy {
    // Whether the first does not come after the second.
    ghost upto: { Self → Self → Bool };

    fn not_after(&self, other: &Self) -> bool
        ensures { result ≡ upto self.now other.now };

    // A law: each make proves it.
    ghost total: { TotalOrder upto };
}

// What ranks by its own `Ord`. That is said of a type in a line and does not follow from `Ord`: a type may rank by
// another order than its `Ord`, or have an equality that tells apart what it ranks alike.
pub trait ByOrd: Ord + Copy {}

impl<E: ByOrd> Ordered for E {
    ghost upto = { compared E.cmp };

    ghost total = { by_laws E.cmp E.Ord.total };

    fn not_after(&self, other: &E) -> bool {
        *self <= *other
    }
}

impl ByOrd for i8 {}

impl ByOrd for i16 {}

// Prices, in cents.
impl ByOrd for i32 {}

impl ByOrd for i64 {}

impl ByOrd for i128 {}

impl ByOrd for isize {}

impl ByOrd for u8 {}

impl ByOrd for u16 {}

impl ByOrd for u32 {}

impl ByOrd for u64 {}

impl ByOrd for u128 {}

impl ByOrd for usize {}

impl ByOrd for bool {}

impl ByOrd for char {}
