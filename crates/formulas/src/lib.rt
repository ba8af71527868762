//! The exposure of each kind of submission, in grains, over percentile figures and credit factors.
#![tactic(auto)]

mod block;
mod blocks;
pub mod factors;
pub mod figure;
mod grains;
pub mod kinds;
pub mod making;
