// The tables of a ledger: the head record, rows of banks and of grants, and why a call may be refused.
#![tactic(auto)]

mod bank;
mod grant;
mod refusal;
mod rows;

pub use refusal::{Refusal, Table};
pub use rows::{Bank, Grant, Head};
