// Rows of counts, made, written and compared.
use crate::seen::{Part, Seen, expect};
use kinds::{Count, Kind};
use ledger::{Bank, Grant};

// The count of a small number.
pub fn count(value: u32) -> Count {
    Count::try_from(value).unwrap_or(Count::empty())
}

// A live bank with a limit of 100.
pub fn bank(parent: u32, used: u32) -> Bank<Count> {
    Bank {
        live: true,
        parent,
        limit: count(100),
        used: count(used),
    }
}

// A live grant.
pub fn grant(bank: u32, serial: u32, amount: u32) -> Grant<Count> {
    Grant {
        live: true,
        bank,
        serial,
        amount: count(amount),
    }
}

// Writes a row, if the table has it.
pub fn put<R: Copy>(table: &mut [R], row: usize, value: R) {
    if let Some(place) = table.get_mut(row) {
        *place = value;
    }
}

// This value stands in the row.
pub fn stands<R: PartialEq>(table: &[R], row: usize, value: &R, part: Part) -> Result<(), Seen> {
    expect(table.get(row) == Some(value), part)
}
