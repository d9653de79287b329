// The desk of a junction: a ledger of the engine's bundle, each of whose calls is printed with its answer.
use crate::words::{AnswerText, Delivery};
use amounts::{AmountText, next_written};
use anyhow::anyhow;
use kinds::{EngineAmount, Kind};
use ledger::Ledger;
use notation::Pieces;

#[derive(Drop)]
pub struct Desk<'a> {
    rt: &'a HostRuntime,
    ledger: Ledger<'a, EngineAmount>,
}

// The amount that is written as a count, frames and windows.
fn amount(text: &str) -> anyhow::Result<EngineAmount> {
    let mut fields = Pieces::new(text.as_bytes(), b' ');
    let written = next_written(&mut fields).ok_or_else(|| anyhow!("an amount cannot be read"))?;
    written
        .amount()
        .map_err(|_| anyhow!("an amount is refused"))
}

impl<'a> Desk<'a> {
    pub fn new(rt: &'a HostRuntime, ledger: Ledger<'a, EngineAmount>) -> Self {
        Desk { rt, ledger }
    }

    pub fn set_up(&mut self, endowment: &str) -> anyhow::Result<()> {
        let endowment = amount(endowment)?;
        let answer = AnswerText(self.ledger.set_up(endowment));
        let endowment = AmountText(&endowment);
        println!(self.rt; "set up with {endowment}: {answer}")?;
        Ok(())
    }

    pub fn open(&mut self, parent: u32, child: u32, limit: &str) -> anyhow::Result<()> {
        let limit = amount(limit)?;
        let answer = AnswerText(self.ledger.open(parent, child, limit));
        let limit = AmountText(&limit);
        println!(self.rt; "open bank {child} under {parent}, limit {limit}: {answer}")?;
        Ok(())
    }

    pub fn buy(&mut self, bank: u32, row: u32, wanted: &str) -> anyhow::Result<()> {
        let wanted = amount(wanted)?;
        let answer = AnswerText(self.ledger.buy(bank, row, wanted));
        let wanted = AmountText(&wanted);
        println!(self.rt; "buy {wanted} from bank {bank} into row {row}: {answer}")?;
        Ok(())
    }

    pub fn give_back(&mut self, row: u32, serial: u32) -> anyhow::Result<()> {
        let answer = AnswerText(self.ledger.give_back(row, serial));
        println!(self.rt; "give back row {row} with serial {serial}: {answer}")?;
        Ok(())
    }

    pub fn reclaim(&mut self, bank: u32) -> anyhow::Result<()> {
        let mut place = EngineAmount::empty();
        let answer = self.ledger.reclaim(bank, &mut place);
        let delivery = Delivery {
            answer,
            verb: "got",
            amount: place,
        };
        println!(self.rt; "reclaim bank {bank}: {delivery}")?;
        Ok(())
    }

    pub fn hand_up(&mut self, bank: u32) -> anyhow::Result<()> {
        let answer = AnswerText(self.ledger.hand_up(bank));
        println!(self.rt; "hand up bank {bank}: {answer}")?;
        Ok(())
    }

    pub fn stock(&self) -> anyhow::Result<()> {
        let mut place = EngineAmount::empty();
        let answer = self.ledger.stock(&mut place);
        let delivery = Delivery {
            answer,
            verb: "left",
            amount: place,
        };
        println!(self.rt; "stock: {delivery}")?;
        Ok(())
    }
}
