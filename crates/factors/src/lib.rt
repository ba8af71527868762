//! The factors that weigh exposure, from the ratios of a counter-party's days.
#![tactic(auto)]

pub mod days;
pub mod factor;
mod portion;
mod rated;
mod ratio;
mod ratio_order;
mod rounding;
