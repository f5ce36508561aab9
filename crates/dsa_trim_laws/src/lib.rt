//! The laws of trimmed logs: the contract of a function with an empty body, which a caller calls to
//! have them.
#![tactic(auto)]

mod trim_laws;

pub use trim_laws::trimming;
