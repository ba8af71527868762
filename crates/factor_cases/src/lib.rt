//! Factors worked out by hand.
#![tactic(auto)]

#[cfg(test)]
mod e1_cases;
#[cfg(test)]
mod e2_cases;
