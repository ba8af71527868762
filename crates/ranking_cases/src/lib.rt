//! Percentiles worked out by hand, at a type whose equal elements can be told apart.
#![tactic(auto)]

#[cfg(test)]
mod letter_cases;
#[cfg(test)]
mod percentile_cases;
pub mod tagged;
