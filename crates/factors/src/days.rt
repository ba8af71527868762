// The figures of a day. The two types have the same fields and stay two, so that neither unit passes for
// the other.

// What was bid and offered on a day, in whole dollars.
#[derive(Clone, Copy)]
pub struct Dollars {
    pub bids: i64,
    pub offers: i64,
}

// What was bid and offered on a day, in tenths of a MW.
#[derive(Clone, Copy)]
pub struct Quantities {
    pub bids: i64,
    pub offers: i64,
}
