// A session at a ledger of the engine's bundle: a script is taken line by line, and what is replied to each line is written down.
#![tactic(auto)]

mod calls;
mod session;

pub use session::Session;
