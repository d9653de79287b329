// An amount, written as text.
ghost use Rattle.amounts.specs.Showing.{amount_text};
ghost use Rattle.std.specs.Prelude.{Some};

use kinds::EngineAmount;
use notation::Runs;
use std::fmt;

// An amount, shown as its count, its frames and its windows with a space between them. Its own type is another crate's.
#[derive(Clone, Copy)]
pub struct AmountText<'a>(pub &'a EngineAmount);

impl fmt::Display for AmountText<'_> {
    ghost output = { λ t. Some (amount_text t.0.now) };

    fn fmt<W: fmt::Write>(&self, f: &mut fmt::Formatter<W>) -> fmt::Result {
        let count = self.0.first.value();
        let list = self.0.second.first.runs();
        let frames = Runs(list.as_slice());
        let windows = Runs(self.0.second.second.runs());
        write!(f, "{count} {frames} {windows}")
    }
}
