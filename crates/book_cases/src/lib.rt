//! Examples of submissions and of the book, each worked out by hand from the rules.
#![tactic(auto)]

#[cfg(test)]
mod batches;
#[cfg(test)]
mod calls;
pub mod fixed;
pub mod fixed_rule;
#[cfg(test)]
mod setting;
#[cfg(test)]
mod submissions;
