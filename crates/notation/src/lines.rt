// An input cut into lines: each ends at byte 10, and last bytes without it are a line too.
ghost use Rattle.std.specs.Prelude.{◌≡◌, ◌≤◌, length};
ghost use Rattle.notation.specs.Cut.{lines};
ghost use Rattle.notation.specs.LinesLeft.{LineStep, lines_left};
ghost use Rattle.std.specs.Iterator.{at_most};

use crate::pieces::first_piece;

// The lines of an input, one after another, each without its end.
#[derive(Drop)]
pub struct Lines<'a> {
    rest: &'a [u8],
}

impl<'a> Lines<'a> {
    // All the lines, no more than there are bytes.
    #[tactic(auto, using(crate::proofs::LineCutting::few_lines))]
    pub fn new(input: &'a [u8]) -> Self
        ensures value { lines_left result ≡ lines input.now }
        ensures bound { length (lines_left result) ≤ length input.now }
    {
        Lines { rest: input }
    }
}

impl<'a> Iterator for Lines<'a> {
    type Item = &'a [u8];

    ghost next_gives = { LineStep };

    ghost remaining = { λ s. at_most (length (lines_left s)) };

    fn next(&mut self) -> Option<&'a [u8]> {
        if self.rest.is_empty() {
            return None;
        }
        let (line, rest) = first_piece(self.rest, b'\n');
        self.rest = rest.unwrap_or(&[]);
        Some(line)
    }
}
