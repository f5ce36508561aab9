//! The laws of claims, logs, parts and the search. Each is the contract of a function with an empty
//! body: a caller calls it to have its law.
#![tactic(auto)]

mod claim_laws;
mod log_laws;
mod part_laws;
mod plan_laws;
mod search_laws;

pub use claim_laws::{covering, least_weight_is_settled, up_is_least};
pub use log_laws::{accepted_log_refutes, legal_line_refutes};
pub use part_laws::{
    parts_are_greatest, parts_are_uncut, parts_by_time_are_the_parts, parts_go_together,
    parts_make_the_whole, parts_share_no_moment,
};
pub use plan_laws::{higher_is_feasible, plan_stays, search_is_complete};
pub use search_laws::{
    choices_are_in_order, ends_of_search, first_is_complete, first_stays, plain_first_is_complete,
    search_equations, work_is_bounded,
};
