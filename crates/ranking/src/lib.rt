//! Percentiles over any total order, and the percentile that each letter stands for.
#![tactic(auto)]

pub mod fault;
pub mod letters;
pub mod order;
pub mod percentile;
