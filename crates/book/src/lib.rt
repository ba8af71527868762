//! The credit book: what stands, its exposure, and the rights that are free.
#![tactic(auto)]

mod admits;
pub mod answer;
pub mod ask;
mod batch;
pub mod batches;
mod keeping;
mod ledger;
pub mod limit;
pub mod memory;
pub mod opening;
pub mod refusal;
pub mod row;
pub mod state;
pub mod submit;
pub mod withdraw;
