// Amounts, verdicts and refusals in words.
ghost use Rattle.plan.specs.Reports.{words_text, verdict_text, reason_text, refusal_text};
ghost use Rattle.std.specs.Prelude.{◌≡◌, Some};

use junction::Conflict;
use kind::AmountRefusal;
use kinds::EngineAmount;
use notation::Runs;
use std::fmt;

// An amount: vehicles, frames and green. Its own type is another crate's.
#[derive(Clone, Copy)]
pub struct AmountWords<'a>(pub &'a EngineAmount);

impl fmt::Display for AmountWords<'_> {
    ghost output = { λ t. Some (words_text t.0.now) };

    fn fmt<W: fmt::Write>(&self, f: &mut fmt::Formatter<W>) -> fmt::Result {
        let count = self.0.first.value();
        let list = self.0.second.first.runs();
        let frames = Runs(list.as_slice());
        let windows = Runs(self.0.second.second.runs());
        write!(f, "{count} vehicles, frames {frames}, green {windows}")
    }
}

// What came of a stage. Its own type is the library's.
#[derive(Clone, Copy)]
pub struct VerdictWords(pub Result<(), Conflict>);

impl fmt::Display for VerdictWords {
    ghost output = { λ t. Some (verdict_text t.0) };

    fn fmt<W: fmt::Write>(&self, f: &mut fmt::Formatter<W>) -> fmt::Result {
        match self.0 {
            Ok(()) => write!(f, "added"),
            Err(conflict) => write!(f, "does not fit, {conflict}"),
        }
    }
}

// Why an amount is refused.
fn reason(refusal: AmountRefusal) -> &'static str
    ensures { result.now ≡ reason_text refusal }
{
    match refusal {
        AmountRefusal::CountTooLarge => "the count is too large",
        AmountRefusal::BadRun => "a run is empty, turned round or beyond the end",
    }
}

// A refusal: its number, its place and its reason. Its own type is another crate's.
#[derive(Clone, Copy)]
pub struct RefusalWords(pub AmountRefusal);

impl fmt::Display for RefusalWords {
    ghost output = { λ t. Some (refusal_text t.0) };

    fn fmt<W: fmt::Write>(&self, f: &mut fmt::Formatter<W>) -> fmt::Result {
        let number = self.0.number();
        let place = self.0.place();
        let reason = reason(self.0);
        write!(f, "refused with {number} at {place}, {reason}")
    }
}
