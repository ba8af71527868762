//! Examples of whole day files and of their headers, each worked out by hand from the rules.
#![tactic(auto)]

#[cfg(test)]
mod files;
#[cfg(test)]
mod headers;
