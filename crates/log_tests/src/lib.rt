//! Tests of logs: lines that are taken or refused, logs that are closed, logs that are trimmed, and
//! their texts, read, written and checked.
#![tactic(auto)]

#[cfg(test)]
mod log_check_tests;
#[cfg(test)]
mod log_text_tests;
#[cfg(test)]
mod log_trim_tests;
#[cfg(test)]
mod made;
#[cfg(test)]
mod refute_log_tests;
