// A list grows at its end.
ghost use Rattle.std.specs.Prelude.{◌≡◌, ◌<◌, [], ◌∷◌, ◌++◌, length, MatchResult};
ghost use Rattle.lists.specs.Listed.{listed};

use crate::list::FixedList;

// There is no place left.
#[derive(Clone, Copy, Debug, PartialEq, Eq)]
pub struct Full;

impl<T: Copy, const N: usize> FixedList<T, N> {
    // No item; `blank` stands in the places that hold none.
    pub fn new(blank: T) -> Self
        ensures { listed result ≡ [] }
    {
        FixedList {
            places: [blank; N],
            used: 0,
        }
    }

    // One item more, at the end, if there is a place for it.
    pub fn push(&mut self, item: T) -> Result<(), Full>
        ensures { MatchResult result (λ _. (length (listed self.old) < N) × (listed self.new ≡ listed self.old ++ (item ∷ []))) (λ _. (length (listed self.old) ≡ N) × (self.new ≡ self.old)) }
    {
        if self.used == N {
            return Err(Full);
        }
        self.places[self.used] = item;
        self.used += 1;
        Ok(())
    }

    // The items.
    pub fn as_slice(&self) -> &[T]
        ensures { result.now ≡ listed self.now }
    {
        let places = &self.places[..];
        &places[..self.used]
    }
}
