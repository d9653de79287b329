// Answers of the ledger, in words.
use amounts::AmountText;
use kinds::EngineAmount;
use ledger::Refusal;
use std::fmt;

// What stands in the way.
fn word(refusal: Refusal) -> &'static str {
    match refusal {
        Refusal::TableLength(_) => "a table is too short or too long",
        Refusal::NoSuchBank(_) => "no such bank row",
        Refusal::NoSuchGrant(_) => "no such grant row",
        Refusal::EmptyAmount(_) => "nothing to buy",
        Refusal::BankFree(_) => "the bank is free",
        Refusal::RowLive(_) => "the row is taken",
        Refusal::ChainFull(_) => "the chain is full",
        Refusal::OverLimit(_) => "already held or over the limit",
        Refusal::NotThisGrant(_) => "not this grant",
        Refusal::RootBank => "the root stays",
        Refusal::SerialsSpent => "no serial is left",
        Refusal::OutOfOrder(_) => "the ledger is out of order",
    }
}

// An answer: the result, or the number and the place of the refusal and a word for it. Its own type is the library's.
#[derive(Clone, Copy)]
pub struct AnswerText(pub Result<u32, Refusal>);

impl fmt::Display for AnswerText {
    fn fmt<W: fmt::Write>(&self, f: &mut fmt::Formatter<W>) -> fmt::Result {
        match self.0 {
            Ok(result) => write!(f, "ok {result}"),
            Err(refusal) => {
                let number = refusal.number();
                let place = refusal.place();
                let word = word(refusal);
                write!(f, "refused with {number} at {place}, {word}")
            }
        }
    }
}

// An answer with the amount that the call delivers if it is accepted.
#[derive(Clone, Copy)]
pub struct Delivery {
    pub answer: Result<u32, Refusal>,
    pub verb: &'static str,
    pub amount: EngineAmount,
}

impl fmt::Display for Delivery {
    fn fmt<W: fmt::Write>(&self, f: &mut fmt::Formatter<W>) -> fmt::Result {
        let answer = AnswerText(self.answer);
        write!(f, "{answer}")?;
        if self.answer.is_ok() {
            let verb = self.verb;
            let amount = AmountText(&self.amount);
            write!(f, ", {verb} {amount}")?;
        }
        Ok(())
    }
}
