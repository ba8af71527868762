//! The format of a day file: its bytes, read as a header and calls.
#![tactic(auto)]

pub mod call;
pub mod calls;
pub mod header;
pub mod headers;
pub mod packed;
pub mod records;
