//! Tests of the starts, of orders of rows, of the search and what it goes by, of the planner, also
//! over arrays, and the portfolio, and of cores.
#![tactic(auto)]

#[cfg(test)]
mod conflicts_tests;
#[cfg(test)]
mod core_find_tests;
#[cfg(test)]
mod draws;
#[cfg(test)]
mod dsa_plan_tests;
#[cfg(test)]
mod first_fit_tests;
#[cfg(test)]
mod instances;
#[cfg(test)]
mod line_index_tests;
#[cfg(test)]
mod min_capacity_tests;
#[cfg(test)]
mod numbers;
#[cfg(test)]
mod placing_search_tests;
#[cfg(test)]
mod planner_tests;
#[cfg(test)]
mod portfolio_tests;
#[cfg(test)]
mod replays;
#[cfg(test)]
mod row_orders_tests;
#[cfg(test)]
mod search_core_tests;
#[cfg(test)]
mod searches;
#[cfg(test)]
mod skyline_tests;
