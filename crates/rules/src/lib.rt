// The rules of the ledger's calls, what a list of calls shows, and the law of lists. All of it is in specs/; code above cites it.
#![tactic(auto)]

mod law;

pub use law::lists_keep_books;
