//! The parts of an instance: greatest sets of buffers of which no cut separates two, a cut being a
//! moment that lies inside no lifetime. Each part can be laid out by itself.
#![tactic(auto)]

mod part_list;
mod split;

pub use part_list::Parts;
pub use split::parts;
