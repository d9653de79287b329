// A ledger of any kind: a tree of banks that sells parts of an endowment.
#![tactic(auto)]

mod branches;
mod chains;
mod checks;
mod close;
mod freeing;
mod handing;
mod ledger;
mod passes;
mod setup;
mod trade;
mod uses;

pub use ledger::{Ledger, View};
pub use tables::{Bank, Grant, Head, Refusal, Table};
