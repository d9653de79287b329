// A line of a plan, and what came of it.
ghost use Rattle.plan.specs.Reports.{report_text, line_report, held_line};
ghost use Rattle.stages.specs.Stages.{stage};
ghost use Rattle.std.specs.Prelude.{◌≡◌, Some};

use crate::text::{AmountWords, RefusalWords, VerdictWords};
use junction::{Conflict, add};
use kind::AmountRefusal;
use kinds::EngineAmount;
use stages::read_stage;
use std::fmt;

// What came of a line: it cannot be read, the amount of its stage is refused, or its stage was judged.
#[derive(Clone, Copy)]
pub(crate) enum LineReport<'a> {
    Unread,
    Refused {
        name: &'a str,
        refusal: AmountRefusal,
    },
    Judged {
        name: &'a str,
        amount: EngineAmount,
        verdict: Result<(), Conflict>,
    },
}

impl fmt::Display for LineReport<'_> {
    ghost output = { λ t. Some (report_text t) };

    fn fmt<W: fmt::Write>(&self, f: &mut fmt::Formatter<W>) -> fmt::Result {
        match self {
            LineReport::Unread => write!(f, "cannot be read"),
            LineReport::Refused { name, refusal } => {
                let refusal = RefusalWords(*refusal);
                write!(f, "{name} is {refusal}")
            }
            LineReport::Judged {
                name,
                amount,
                verdict,
            } => {
                let amount = AmountWords(amount);
                let verdict = VerdictWords(*verdict);
                write!(f, "{name} takes {amount}: {verdict}")
            }
        }
    }
}

// Takes one line: its stage is added if its amount is one and fits.
pub(crate) fn take_line<'a>(line: &'a [u8], held: &mut EngineAmount) -> LineReport<'a>
    ensures text { report_text result ≡ line_report held.old (stage line.now) }
    ensures held { held.new ≡ held_line held.old (stage line.now) }
{
    let Some(stage) = read_stage(line) else {
        return LineReport::Unread;
    };
    let name = stage.name;
    match stage.takes.amount() {
        Ok(amount) => LineReport::Judged {
            name,
            amount,
            verdict: add(held, &amount),
        },
        Err(refusal) => LineReport::Refused { name, refusal },
    }
}
