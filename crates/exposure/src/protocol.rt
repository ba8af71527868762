// The protocol rule: what it holds.
use formulas::factors::Factors;

// A day-ahead record and a real-time record of any make, and the credit factors.
#[derive(Clone, Copy)]
pub struct Protocol<D, T> {
    pub day_ahead: D,
    pub real_time: T,
    pub factors: Factors,
}
