// What a junction holds, and whether one stage more fits.
#![tactic(auto)]

mod conflict;
mod laws;
mod verdict;

pub use conflict::Conflict;
pub use laws::verdicts_are_right;
pub use verdict::add;
