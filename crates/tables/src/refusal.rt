// Why a call of the ledger was refused. A refused call leaves the ledger and the caller's place as they were.
ghost use Rattle.tables.specs.Refusals.{refusal_report};
ghost use Rattle.std.specs.Prelude.{◌≡◌};

// Which table has a length out of range.
#[derive(Clone, Copy, Debug, PartialEq, Eq)]
pub enum Table {
    Banks,
    Grants,
}

#[derive(Clone, Copy, Debug, PartialEq, Eq)]
pub enum Refusal {
    // A table length is out of range.
    TableLength(Table),
    // A bank row number is not in the table.
    NoSuchBank(u32),
    // A grant row number is not in the table.
    NoSuchGrant(u32),
    // The amount to buy is empty; with the bank.
    EmptyAmount(u32),
    // The bank row is free.
    BankFree(u32),
    // The row to fill is live.
    RowLive(u32),
    // The chain of the parent has 16 rows already.
    ChainFull(u32),
    // On the chain, a use and the amount do not fit, or the limit does not hold their join; with the bank nearest the buyer.
    OverLimit(u32),
    // The grant row is free or has another serial.
    NotThisGrant(u32),
    // The bank is row 0.
    RootBank,
    // The last serial is 4,000,000,000 or more.
    SerialsSpent,
    // The ledger is out of order at this bank.
    OutOfOrder(u32),
}

impl Refusal {
    // The number by which the refusal is known. It is fixed by those who read it, so it is no discriminant.
    pub fn number(self) -> u32
        ensures { result ≡ (refusal_report self).number }
    {
        match self {
            Refusal::TableLength(_) => 4,
            Refusal::NoSuchBank(_) => 5,
            Refusal::NoSuchGrant(_) => 6,
            Refusal::EmptyAmount(_) => 7,
            Refusal::BankFree(_) => 12,
            Refusal::RowLive(_) => 13,
            Refusal::ChainFull(_) => 14,
            Refusal::OverLimit(_) => 15,
            Refusal::NotThisGrant(_) => 16,
            Refusal::RootBank => 17,
            Refusal::SerialsSpent => 18,
            Refusal::OutOfOrder(_) => 19,
        }
    }

    // The place that the refusal names.
    pub fn place(self) -> u32
        ensures { result ≡ (refusal_report self).place }
    {
        match self {
            Refusal::TableLength(Table::Banks) => 0,
            Refusal::TableLength(Table::Grants) => 1,
            Refusal::NoSuchBank(row)
            | Refusal::NoSuchGrant(row)
            | Refusal::EmptyAmount(row)
            | Refusal::BankFree(row)
            | Refusal::RowLive(row)
            | Refusal::ChainFull(row)
            | Refusal::OverLimit(row)
            | Refusal::NotThisGrant(row)
            | Refusal::OutOfOrder(row) => row,
            Refusal::RootBank | Refusal::SerialsSpent => 0,
        }
    }
}
