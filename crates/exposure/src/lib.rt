//! What a submission exposes the market operator to: the rule interface, the rate rule and the
//! protocol rule.
#![tactic(auto)]

pub mod fault;
mod figures;
mod kinds;
pub mod protocol;
pub mod protocol_rule;
pub mod rates;
pub mod rating;
pub mod rule;
