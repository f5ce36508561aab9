//! Tests of `run` over files and sinks in memory: what is written, what is printed, and what fails
//! outside; and of those files and sinks, and the real ones.
#![tactic(auto)]

#[cfg(test)]
mod case;
#[cfg(test)]
mod deciding_tests;
#[cfg(test)]
mod draft_tests;
#[cfg(test)]
mod fault_tests;
#[cfg(test)]
mod judging_tests;
#[cfg(test)]
mod outside_tests;
#[cfg(test)]
mod replaced_tests;
#[cfg(test)]
mod texts;
