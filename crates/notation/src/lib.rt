// Text: bytes cut into lines and pieces, numbers and runs read from them, and runs written as text.
#![tactic(auto)]

mod laws;
mod lines;
mod numbers;
mod pieces;
mod spans;
mod writing;

pub use laws::{cuts_exactly, does_as_meant, spans_read_back};
pub use lines::Lines;
pub use numbers::{next_number, read_number};
pub use pieces::{Pieces, first_piece};
pub use spans::{Span, next_part, read_part, read_span};
pub use writing::Runs;
