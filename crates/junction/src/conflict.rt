// What is in the way of a stage, and how it is told.
ghost use Rattle.junction.specs.Conflicts.{conflict_text};
ghost use Rattle.std.specs.Prelude.{Some};

use std::fmt;

// There are too many vehicles, or the first frame or second that a stage wants is held.
#[derive(Clone, Copy, Debug, PartialEq, Eq)]
pub enum Conflict {
    TooManyVehicles,
    FrameHeld(u16),
    SecondHeld(u16),
}

impl fmt::Display for Conflict {
    ghost output = { λ c. Some (conflict_text c) };

    fn fmt<W: fmt::Write>(&self, f: &mut fmt::Formatter<W>) -> fmt::Result {
        match self {
            Conflict::TooManyVehicles => write!(f, "too many vehicles"),
            Conflict::FrameHeld(frame) => write!(f, "frame {frame} is already held"),
            Conflict::SecondHeld(second) => write!(f, "second {second} is already held"),
        }
    }
}
