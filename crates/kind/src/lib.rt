// What a kind of resource is: the questions it answers, the laws it keeps, and why an amount may be refused when it is made.
#![tactic(auto)]

mod kind;
mod refusal;

pub use kind::Kind;
pub use refusal::AmountRefusal;
