//! Learned lines: the least one that covers a claim, and eased lines, which cover no less.
#![tactic(auto)]

mod cites;
mod easing;
mod lemmas;
mod lowering;
mod needs;
mod parts;
mod stack;

pub use easing::ease;
pub use lemmas::Lemmas;
