// Bytes cut at a mark, as at spaces or dots, piece by piece.
ghost use Rattle.notation.specs.Cut.{pieces};
ghost use Rattle.notation.specs.Forms.{end};
ghost use Rattle.notation.specs.Left.{Gave, after, left};
ghost use Rattle.std.specs.Prelude.{◌≡◌, ◌∷◌};

// The pieces of some bytes between their marks, one after another.
#[derive(Drop)]
pub struct Pieces<'a> {
    rest: Option<&'a [u8]>,
    mark: u8,
}

impl<'a> Pieces<'a> {
    // All the pieces.
    pub fn new(bytes: &'a [u8], mark: u8) -> Self
        ensures { left result ≡ pieces mark bytes.now }
    {
        let rest = Some(bytes);
        Pieces { rest, mark }
    }

    // The first of the pieces left; the others stay. No `Iterator`: callers take a few by name and ask whether any is left.
    pub fn next_piece(&mut self) -> Option<&'a [u8]>
        ensures { Gave (left self.old) result (left self.new) }
    {
        let (piece, rest) = first_piece(self.rest?, self.mark);
        self.rest = rest;
        Some(piece)
    }

    // The value, if no piece is left.
    pub fn end_with<T: Drop>(mut self, value: T) -> Option<T>
        ensures { result ≡ end value (left self.entry) }
    {
        self.next_piece().is_none().then_some(value)
    }
}

// The bytes before the first mark, and those after it, if there is one.
pub fn first_piece(bytes: &[u8], mark: u8) -> (&[u8], Option<&[u8]>)
    ensures { pieces mark bytes.now ≡ result.0.now ∷ after mark result.1 }
{
    match bytes.iter().position(|b| *b == mark) {
        Some(i) => (&bytes[..i], Some(&bytes[i + 1..])),
        None => (bytes, None),
    }
}
