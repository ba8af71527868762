//! A day file run to its lines: each call, the number it returns, and the exposure after it.
#![tactic(auto)]

mod apply;
mod line;
mod play;
pub mod refusal;
pub mod run;
