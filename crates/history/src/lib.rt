//! Histories of a book: what each call answers, what stands by the calls alone, and the laws of every run.
#![tactic(auto)]

pub mod accepted;
pub mod batch;
pub mod refusal;
