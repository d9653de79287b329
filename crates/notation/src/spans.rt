// Runs as they are written, read from bytes.
ghost use Rattle.notation.specs.Left.{Took, left};
ghost use Rattle.notation.specs.Spans.{part, span};
ghost use Rattle.std.specs.Prelude.{◌≡◌};

use crate::numbers::next_number;
use crate::pieces::Pieces;

// A run as it is written: not yet judged to be a `Run`, so a type of its own, with any ends of 32 bits.
#[derive(Clone, Copy)]
pub struct Span {
    pub from: u32,
    pub to: u32,
}

// The run `from..to`.
pub fn read_span(bytes: &[u8]) -> Option<Span>
    ensures { result ≡ span bytes.now }
{
    let mut ends = Pieces::new(bytes, b'.');
    let from = next_number(&mut ends)?;
    if !ends.next_piece()?.is_empty() {
        return None;
    }
    let to = next_number(&mut ends)?;
    ends.end_with(Span { from, to })
}

// A run, or `-` for none.
pub fn read_part(bytes: &[u8]) -> Option<Option<Span>>
    ensures { result ≡ part bytes.now }
{
    match bytes {
        b"-" => Some(None),
        _ => read_span(bytes).map(Some),
    }
}

// The next piece, read as a run or none.
pub fn next_part(source: &mut Pieces) -> Option<Option<Span>>
    ensures { Took part (left source.old) result (left source.new) }
{
    read_part(source.next_piece()?)
}
