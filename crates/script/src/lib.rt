// A script for a ledger of the engine's bundle: its lines read as commands, and the text of what is replied to each.
#![tactic(auto)]

mod command;
mod reading;
mod reply;

pub use command::Command;
pub use reading::read_command;
pub use reply::{Done, LineRefusal, Reply, ReplyText};
