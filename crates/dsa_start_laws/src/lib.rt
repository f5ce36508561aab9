//! The laws of the starts, the plan, the lower bound and the peak. Each is the contract of a
//! function with an empty body: a caller calls it to have its law.
#![tactic(auto)]

mod bound_laws;
mod capacity_laws;
mod fit_laws;
mod start_laws;

pub use bound_laws::{
    bound_is_low, bound_modulus_is_least, floors_are_enough, sections_reach_the_bound,
    stacks_are_piles,
};
pub use capacity_laws::{least_is_least, peak_is_one, plan_is_complete};
pub use fit_laws::{best_place_is_tightest, first_place_is_least};
pub use start_laws::{best_start_is_lowest, orders_are_ordered, starts_are_layouts};
