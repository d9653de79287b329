// A set of seconds below 128, as runs; `members` makes and reads it, `walk` compares two, `algebra` has its answers as a kind.
pub mod algebra;
mod members;
mod walk;

ghost use Rattle.sets.specs.Runs.{tidy};
ghost use Rattle.windows.specs.Sizes.{second_count, window_places};
ghost use Rattle.std.specs.Prelude.{◌≡◌, true};

use sets::Run;

// How many seconds a set tells apart.
pub const SECONDS: u16 = 128;

// Room for a run of one second at every other second.
const PLACES: usize = 64;

// No place in use.
const NO_RUNS: [Run; PLACES] = [Run { from: 0, to: 0 }; PLACES];

// The runs stand in rising order with a gap between each two; unused places are 0 and 0, at the end. An amount lies in a row, so the places are fixed.
#[derive(Clone, Copy, PartialEq, Eq)]
pub struct Windows {
    runs: [Run; PLACES],
    ghost sound: { tidy second_count window_places runs ≡ true },
}
