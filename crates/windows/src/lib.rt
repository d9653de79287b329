// Windows: sets of seconds of a signal cycle that unite if they share none.
#![tactic(auto)]

mod windows;

pub use windows::{SECONDS, Windows};
