// Amounts of the engine's bundle as text, both ways.
#![tactic(auto)]

mod laws;
mod showing;
mod written;

pub use laws::amounts_print_as_read;
pub use showing::AmountText;
pub use written::{Written, next_written};
