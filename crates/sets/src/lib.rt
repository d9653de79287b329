// Sets of numbers below a bound: what their disjoint unions are, and how bytes and runs keep them.
#![tactic(auto)]

mod laws;
mod run;

pub use laws::{bytes_are_sets, runs_are_sets};
pub use run::Run;
