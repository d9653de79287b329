// Windows as a kind: they unite if they share no second.
ghost use Rattle.sets.specs.Members.{SameMembers};
ghost use Rattle.std.specs.Prelude.{◌≡◌, Decides};
ghost use Rattle.windows.specs.Sizes.{second_count};
ghost use Rattle.windows.specs.WindowSets.{window, Unites, windows_answers};
ghost use Rattle.sets.proofs.Unions as unions;
ghost use Rattle.windows.specs.WindowFacts.{window_sets};

use crate::windows::{NO_RUNS, Windows};
use kind::Kind;

impl Kind for Windows {
    ghost makes = { Unites };

    ghost answers = { windows_answers };

    ghost functional = { unions.functional window_sets };

    ghost commutative = { unions.commutative window_sets };

    ghost associative = { unions.associative window_sets };

    ghost neutral = { unions.neutral window_sets };

    ghost cancellative = { unions.cancellative window_sets };

    ghost positive = { unions.positive window_sets };

    ghost tells_empty = { unions.tells_empty window_sets };

    ghost tells_fit = { unions.tells_fit window_sets };

    ghost gives_join = { unions.gives_join window_sets };

    ghost tells_part = { unions.tells_part window_sets };

    ghost gives_remainder = { unions.gives_remainder window_sets };

    fn empty() -> Self {
        Windows { runs: NO_RUNS }
    }

    // The runs stand from the first place on, so one look tells.
    fn is_empty(&self) -> bool {
        self.runs[0].to == 0
    }

    // Runs stand from the first place on, so none past the first that neither uses is looked at.
    fn same(&self, other: &Self) -> bool
        ensures equal { Decides result (self.now ≡ other.now) }
        ensures by_members { Decides result (SameMembers second_count window self.now other.now) }
    {
        self.runs
            .iter()
            .zip(&other.runs)
            .take_while(|(x, y)| x.to > 0 || y.to > 0)
            .all(|(x, y)| x.from == y.from && x.to == y.to)
    }

    // A set of no second fits any, which one look tells.
    fn fits(&self, other: &Self) -> bool {
        if self.is_empty() || other.is_empty() {
            return true;
        }
        !self
            .walk(other)
            .take_while(|turn| turn.one_left && turn.other_left)
            .any(|turn| turn.in_one && turn.in_other)
    }

    // As for frames: one function for this and for `remainder` would need a trait of its own, with `difference` and what it says.
    fn join(&self, other: &Self) -> Self {
        if self.fits(other) {
            self.difference(other)
        } else {
            Self::empty()
        }
    }

    fn holds(&self, part: &Self) -> bool {
        !part
            .walk(self)
            .take_while(|turn| turn.one_left)
            .any(|turn| turn.in_one && !turn.in_other)
    }

    fn remainder(&self, part: &Self) -> Self {
        if self.holds(part) {
            self.difference(part)
        } else {
            Self::empty()
        }
    }
}
