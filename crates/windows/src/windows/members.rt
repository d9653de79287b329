// Windows made from a run, and read back: second by second, or run by run.
ghost use Rattle.sets.specs.Members.{Has};
ghost use Rattle.sets.specs.Runs.{within};
ghost use Rattle.std.specs.Prelude.{◌≡◌, IfOk, Decides};
ghost use Rattle.windows.specs.Sizes.{second_count};
ghost use Rattle.windows.specs.WindowSets.{window, make_windows, window_runs};

use crate::windows::{NO_RUNS, SECONDS, Windows};
use kind::AmountRefusal;
use sets::Run;

impl Windows {
    // The seconds from `from` up to `to` - 1, refused unless there is one and all are below `SECONDS`.
    pub fn from_run(from: u32, to: u32) -> Result<Windows, AmountRefusal>
        ensures answer { result ≡ make_windows from to }
        ensures contents { IfOk result (Has second_count window (within from to)) }
    {
        let mut runs = NO_RUNS;
        runs[0] = Run::below(SECONDS, from, to)?;
        Ok(Windows { runs })
    }

    // Is this second in the set? Runs rise, so none past the first that begins above it is looked at.
    pub fn has(&self, second: u8) -> bool
        ensures { Decides result (window self.now second ≡ 1) }
    {
        let second = u16::from(second);
        second < SECONDS
            && self
                .runs
                .iter()
                .take_while(|run| run.to > 0 && run.from <= second)
                .any(|run| second < run.to)
    }

    // The longest runs of the seconds, lowest first.
    pub fn runs(&self) -> &[Run]
        ensures { result.now ≡ window_runs self.now }
    {
        let used = self.runs.iter().take_while(|run| run.to > 0).count();
        &self.runs[..used]
    }
}
