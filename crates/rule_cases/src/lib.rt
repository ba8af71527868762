//! Examples of the formulas and of the protocol rule, each worked out by hand from the rules.
#![tactic(auto)]

#[cfg(test)]
mod formula_cases;
#[cfg(test)]
mod protocol_cases;
