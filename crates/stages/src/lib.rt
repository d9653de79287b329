// The stages of a plan, read from its lines.
#![tactic(auto)]

mod names;
mod stage;

pub use names::read_name;
pub use stage::{Stage, read_stage};
