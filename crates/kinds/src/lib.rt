// The kinds that are supplied: counts, frames, windows, and bundles of any two kinds.
#![tactic(auto)]

mod bundle;
mod engine;

pub use bundle::Bundle;
pub use count::Count;
pub use engine::{EngineAmount, engine_amount};
pub use frames::{FrameRuns, Frames};
pub use kind::{AmountRefusal, Kind};
pub use sets::Run;
pub use windows::Windows;
