//! Price records: what they mean, what they answer, and their fault for a point that they do not know.
#![tactic(auto)]

mod difference;
pub mod fault;
pub mod flat;
pub mod flats;
pub mod floor;
pub mod page;
pub mod path;
pub mod range;
pub mod record;
pub mod spread;
