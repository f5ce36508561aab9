//! The command that plans by size class: `classes`.
#![tactic(auto)]

mod classes;

pub use classes::Classes;
