// A step of a curve, and the two sides of the market.
use crate::units::{Price, Tenths};

// A price, and the quantity reached so far. The default, a quantity of 0, is no step of any curve.
#[derive(Clone, Copy, PartialEq, Eq, Debug, Default)]
pub struct Step {
    pub quantity: Tenths,
    pub price: Price,
}

// Whether a curve buys or sells.
#[derive(Clone, Copy, PartialEq, Eq, Debug)]
pub enum Side {
    Bid,
    Offer,
}
