// What is replied to a line, and its text.
ghost use Rattle.script.specs.Replies.{line_report, reply_text};
ghost use Rattle.script.specs.declared.reply.LineRefusal.TheVariants.{Amount, Call};
ghost use Rattle.std.specs.Prelude.{◌≡◌, Some};

use amounts::AmountText;
use kind::AmountRefusal;
use kinds::EngineAmount;
use std::fmt;
use tables::Refusal;

// What an accepted command came to: its result, and the amount that it delivered, if it delivers one.
#[derive(Clone, Copy, PartialEq)]
pub struct Done {
    pub result: u32,
    pub amount: Option<EngineAmount>,
}

// Why a line was refused.
#[derive(Clone, Copy, Debug, PartialEq)]
pub enum LineRefusal {
    // The line of this number cannot be read.
    Unreadable(u32),
    // The line of this number sets up a ledger that is set up, or asks one that is not.
    OutOfTurn(u32),
    // An amount is refused.
    Amount(AmountRefusal),
    // The call is refused.
    Call(Refusal),
}

impl LineRefusal {
    // The number by which the refusal is known. It is fixed by those who read it, so it is no discriminant.
    pub fn number(self) -> u32
        ensures { result ≡ (line_report self).number }
    {
        match self {
            LineRefusal::Unreadable(_) => 1,
            LineRefusal::OutOfTurn(_) => 11,
            LineRefusal::Amount(refusal) => refusal.number(),
            LineRefusal::Call(refusal) => refusal.number(),
        }
    }

    // The place that the refusal names.
    pub fn place(self) -> u32
        ensures { result ≡ (line_report self).place }
    {
        match self {
            LineRefusal::Unreadable(line) | LineRefusal::OutOfTurn(line) => line,
            LineRefusal::Amount(refusal) => refusal.place(),
            LineRefusal::Call(refusal) => refusal.place(),
        }
    }
}

impl From<AmountRefusal> for LineRefusal {
    ghost from_gives = { λ refusal r. r ≡ Amount refusal };

    fn from(refusal: AmountRefusal) -> Self {
        Self::Amount(refusal)
    }
}

impl From<Refusal> for LineRefusal {
    ghost from_gives = { λ refusal r. r ≡ Call refusal };

    fn from(refusal: Refusal) -> Self {
        Self::Call(refusal)
    }
}

// What is replied to a line.
pub type Reply = Result<Done, LineRefusal>;

// A reply, whose own type is the library's, shown as `ok` with the result and the amount, or as `no` with the number and the place of the refusal.
#[derive(Clone, Copy)]
pub struct ReplyText<'a>(pub &'a Reply);

impl fmt::Display for ReplyText<'_> {
    ghost output = { λ t. Some (reply_text t.0.now) };

    fn fmt<W: fmt::Write>(&self, f: &mut fmt::Formatter<W>) -> fmt::Result {
        match self.0 {
            Ok(done) => {
                write!(f, "ok {}", done.result)?;
                if let Some(amount) = &done.amount {
                    write!(f, " {}", AmountText(amount))?;
                }
                Ok(())
            }
            Err(refusal) => write!(f, "no {} {}", refusal.number(), refusal.place()),
        }
    }
}
