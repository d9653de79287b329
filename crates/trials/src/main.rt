// Trials of a ledger: at its bounds, over tables out of order, and in the order of its checks. Each prints one line, `ok` or what was seen.
#![tactic(auto)]

mod books;
mod bounds;
mod disorder;
mod order;
mod rows;
mod seen;
mod starts;

use std::io;

fn main(rt: HostRuntime) -> io::Result<()> {
    bounds::run(&rt)?;
    disorder::run(&rt)?;
    order::run(&rt)
}
