//! What is traded: units, steps, curves and submissions, and what refuses them.
#![tactic(auto)]

pub mod curve;
pub mod curves;
pub mod kind;
pub mod reading;
pub mod refusal;
pub mod right;
pub mod step;
pub mod submission;
pub mod submissions;
pub mod units;
