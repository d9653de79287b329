// Reads a plan of the stages of a junction from standard input, and prints what comes of each stage and what is held in the end.
#![tactic(auto)]

use plan::write_report;
use std::io::Read;

fn run(rt: &HostRuntime) -> anyhow::Result<()> {
    let mut input = Vec::new(rt.alloc());
    rt.stdin().read_to_end(&mut input)?;
    let mut report = String::new(rt.alloc());
    write_report(&mut report, input.as_slice())?;
    rt.print(report.as_str())?;
    Ok(())
}

fn main(rt: HostRuntime) -> anyhow::Result<()> {
    run(&rt)
}
