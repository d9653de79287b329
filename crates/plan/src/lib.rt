// A plan of the stages of one junction: each stage is added to what the junction holds if it fits, and what came of it is told.
#![tactic(auto)]

mod line;
mod report;
mod text;

pub use report::write_report;
pub use text::{AmountWords, RefusalWords, VerdictWords};
