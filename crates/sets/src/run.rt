// A run of numbers, and how it is written.
ghost use Rattle.sets.specs.Runs.{make_run, run};
ghost use Rattle.sets.specs.Texts.{run_text};
ghost use Rattle.std.specs.Prelude.{◌≡◌, ◌<◌, ◌≤◌, Some, IfOk};

use kind::AmountRefusal;
use std::fmt;

// The numbers from `from` up to `to` - 1; 0 and 0 is an unused place.
#[derive(Clone, Copy, Debug, Default, PartialEq, Eq)]
pub struct Run {
    pub from: u16,
    pub to: u16,
}

impl Run {
    // The numbers from `from` up to `to` - 1, refused unless there is one and all are below `end`. Callers have two plain
    // numbers, of which this makes the pair.
    pub fn below(end: u16, from: u32, to: u32) -> Result<Run, AmountRefusal>
        ensures answer { result ≡ make_run end from to }
        ensures contents { IfOk result (λ r. (r ≡ run from to) × (from < to) × (to ≤ end)) }
    {
        if from >= to || to > u32::from(end) {
            return Err(AmountRefusal::BadRun);
        }
        Ok(Run {
            from: from as u16,
            to: to as u16,
        })
    }
}

// Shown as `from..to`.
impl fmt::Display for Run {
    ghost output = { λ run. Some (run_text run) };

    fn fmt<W: fmt::Write>(&self, f: &mut fmt::Formatter<W>) -> fmt::Result {
        write!(f, "{}..{}", self.from, self.to)
    }
}
