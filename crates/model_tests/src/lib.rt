//! Tests of the crates from `dsa_model` on that know no search: buffers and what is live, parts,
//! loads and the bound, claims and their rules, words, made and imported instances, plans by size
//! class, reports.
#![tactic(auto)]

#[cfg(test)]
mod canonical_order_tests;
#[cfg(test)]
mod command_words_tests;
#[cfg(test)]
mod csv_instance_tests;
#[cfg(test)]
mod cyclic_plan_tests;
#[cfg(test)]
mod dsa_model_tests;
#[cfg(test)]
mod layout_report_tests;
#[cfg(test)]
mod lifetime_tests;
#[cfg(test)]
mod load_profile_tests;
#[cfg(test)]
mod lower_bounds_tests;
#[cfg(test)]
mod made;
#[cfg(test)]
mod make_instance_tests;
#[cfg(test)]
mod prune_rules_tests;
#[cfg(test)]
mod size_classes_tests;
#[cfg(test)]
mod split_sections_tests;
#[cfg(test)]
mod trace_import_tests;
