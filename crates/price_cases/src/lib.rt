//! Cases of price records, with the expected values worked out by hand.
#![tactic(auto)]

#[cfg(test)]
mod layers;
#[cfg(test)]
mod pages;
#[cfg(test)]
mod sample;
