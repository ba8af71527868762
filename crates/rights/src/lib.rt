//! The rights that a counter-party holds, what standing submissions draw on them, and what is free.
#![tactic(auto)]

mod claims;
pub mod cover;
pub mod held;
pub mod row;
