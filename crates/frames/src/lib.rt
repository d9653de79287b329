// Frames: sets of frame numbers that unite if they share none.
#![tactic(auto)]

mod frames;

pub use frames::{FRAMES, FrameRuns, Frames};
