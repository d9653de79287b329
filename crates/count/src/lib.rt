// Counts, as of vehicles: whole numbers up to a thousand million that add up.
#![tactic(auto)]

mod count;

pub use count::{Count, TOP};
