// A walk over the ends of the runs of two sets, the lowest first.
ghost use Rattle.std.specs.Prelude.{◌≡◌, ℕ, ◌+◌, ◌-◌, ◌*◌, ◌<◌, true, ◌≢◌};
ghost use Rattle.std.specs.Iterator.{at_most};
ghost use Rattle.sets.specs.Ends.{end_in_place};
ghost use Rattle.sets.specs.Members.{OneOfTwo};
ghost use Rattle.windows.specs.Sizes.{second_count, window_places};
ghost use Rattle.windows.specs.Walking.{GivesEnd, WalksOn, start_of};
ghost use Rattle.windows.specs.WindowSets.{window, windows_answers};

use crate::windows::{NO_RUNS, PLACES, SECONDS, Windows};
use sets::Run;

// What stands for the end of a set that has none left: it lies past every end, so that two numbers are compared and not
// two that may be missing.
const PAST: u16 = SECONDS + 1;

// A second from which on one of two sets has the seconds, or has them no more.
#[derive(Clone, Copy)]
pub(crate) struct Turn {
    pub(crate) at: u16,
    // False once `one` has no end left: it has no second from there on.
    pub(crate) one_left: bool,
    // The same of `other`.
    pub(crate) other_left: bool,
    pub(crate) in_one: bool,
    pub(crate) in_other: bool,
}

// The turns of two sets, one after another.
#[derive(Drop)]
pub(crate) struct Walk<'a> {
    one: &'a Windows,
    other: &'a Windows,
    // How many ends of each are passed: two places at once, which no `for` over one list has.
    passed_in_one: usize,
    passed_in_other: usize,
}

impl Iterator for Walk<'_> {
    type Item = Turn;

    ghost next_gives = { WalksOn };

    ghost remaining = { λ w. at_most ((window_places * 2 - w.passed_in_one) + (window_places * 2 - w.passed_in_other)) };

    fn next(&mut self) -> Option<Turn> {
        let one = self.one.end(self.passed_in_one).unwrap_or(PAST);
        let other = self.other.end(self.passed_in_other).unwrap_or(PAST);
        if one >= PAST && other >= PAST {
            return None;
        }
        if one <= other {
            self.passed_in_one += 1;
        }
        if other <= one {
            self.passed_in_other += 1;
        }
        Some(Turn {
            at: one.min(other),
            one_left: one < PAST,
            other_left: other < PAST,
            in_one: self.passed_in_one % 2 == 1,
            in_other: self.passed_in_other % 2 == 1,
        })
    }
}

// Writes end `q` of the runs: a `from` if `q` is even, else a `to`.
fn put_end(runs: &mut [Run; PLACES], q: usize, at: u16)
    requires { q < window_places * 2 }
    ensures here { end_in_place runs.new q ≡ at }
    ensures others { (j : ℕ) → (j ≢ q) → end_in_place runs.new j ≡ end_in_place runs.old j }
{
    let run = &mut runs[q / 2];
    if q % 2 == 0 {
        run.from = at;
    } else {
        run.to = at;
    }
}

impl Windows {
    // End `i` of the runs, `from` and `to` by turns, if there are so many.
    fn end(&self, i: usize) -> Option<u16>
        ensures { GivesEnd self.now i result }
    {
        let run = *self.runs.get(i / 2)?;
        let end = if i % 2 == 0 { run.from } else { run.to };
        (run.to > 0).then_some(end)
    }

    // The walk over this set and another.
    pub(crate) fn walk<'a>(&'a self, other: &'a Windows) -> Walk<'a>
        ensures { result ≡ start_of self.entry other.entry }
    {
        Walk {
            one: self,
            other,
            passed_in_one: 0,
            passed_in_other: 0,
        }
    }

    // The seconds that are in one of the two but not in both.
    pub(crate) fn difference(&self, other: &Windows) -> Windows
        ensures members { OneOfTwo second_count window self.now other.now result }
        ensures joined { windows_answers.fits self.now other.now ≡ true → result ≡ windows_answers.join self.now other.now }
        ensures left { windows_answers.holds self.now other.now ≡ true → result ≡ windows_answers.remainder self.now other.now }
    {
        let mut runs = NO_RUNS;
        let mut ends = 0;
        for turn in self.walk(other) {
            let inside = turn.in_one != turn.in_other;
            let open = ends % 2 == 1;
            // An end that both sets have is none of the difference, so runs that touch become one.
            if inside != open {
                put_end(&mut runs, ends, turn.at);
                ends += 1;
            }
        }
        Windows { runs }
    }
}
