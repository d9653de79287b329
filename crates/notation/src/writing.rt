// Runs, written as text.
ghost use Rattle.notation.specs.Texts.{runs_text};
ghost use Rattle.std.specs.Prelude.{Some};

use sets::Run;
use std::fmt;

// Runs, shown with commas between them, or as `-` where there is none. A slice is the library's, so this type stands for it.
#[derive(Clone, Copy)]
pub struct Runs<'a>(pub &'a [Run]);

impl fmt::Display for Runs<'_> {
    ghost output = { λ s. Some (runs_text s.0.now) };

    fn fmt<W: fmt::Write>(&self, f: &mut fmt::Formatter<W>) -> fmt::Result {
        let Some((first, rest)) = self.0.split_first() else {
            return write!(f, "-");
        };
        write!(f, "{first}")?;
        for run in rest {
            write!(f, ",{run}")?;
        }
        Ok(())
    }
}
