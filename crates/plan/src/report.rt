// A plan taken line by line, with a report of each line and of what is held in the end.
ghost use Rattle.notation.specs.Cut.{lines};
ghost use Rattle.plan.specs.Accounts.{Accounts};
ghost use Rattle.plan.specs.Reports.{end_text, full_cycle, left_over, plan_report};
ghost use Rattle.kinds.specs.Engine.{engine_answers};
ghost use Rattle.std.specs.Prelude.{◌≡◌, ◌++◌, string_bytes, OnOk};

use crate::line::take_line;
use crate::text::AmountWords;
use count::{Count, TOP};
use frames::{FRAMES, Frames};
use kind::Kind;
use kinds::{EngineAmount, engine_amount};
use notation::Lines;
use std::alloc::AllocError;
use std::fmt;
use windows::{SECONDS, Windows};

// The whole of a cycle.
fn whole_cycle() -> EngineAmount
    ensures { result ≡ full_cycle }
{
    let count = Count::try_from(TOP).unwrap();
    let frames = Frames::from_run(0, FRAMES).unwrap();
    let windows = Windows::from_run(0, u32::from(SECONDS)).unwrap();
    engine_amount(count, frames, windows)
}

// What of a full cycle is left.
fn left_of_cycle(held: &EngineAmount) -> EngineAmount
    ensures { result ≡ left_over held.now }
{
    whole_cycle().remainder(held)
}

// What is held in the end, and what of a full cycle is left.
fn write_end(out: &mut String, held: &EngineAmount) -> Result<(), AllocError>
    ensures { OnOk result (string_bytes out.new ≡ string_bytes out.old ++ end_text held.now) }
{
    let left = left_of_cycle(held);
    let (held, left) = (AmountWords(held), AmountWords(&left));
    writeln!(out, "held: {held}\nleft of a full cycle: {left}")
}

// Takes a whole plan. Where memory fails, a part of the report may stand there.
pub fn write_report(out: &mut String, input: &[u8]) -> fmt::Result
    ensures text { OnOk result (string_bytes out.new ≡ string_bytes out.old ++ plan_report 1 engine_answers.empty (lines input.now)) }
    ensures accounts { Accounts (lines input.now) }
{
    let mut held = EngineAmount::empty();
    for (number, line) in (1u64..).zip(Lines::new(input)) {
        let report = take_line(line, &mut held);
        writeln!(out, "line {number}: {report}")?;
    }
    write_end(out, &held)?;
    Ok(())
}
