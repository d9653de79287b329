// Lists of a fixed size, which lie in the value itself.
#![tactic(auto)]

mod list;

pub use list::{FixedList, Full};
