// The books of a trial: a ledger of counts whose rows a trial writes as it likes, and calls with the answer that is expected.
use crate::rows::{bank, count, grant, put, stands};
use crate::seen::{Part, Seen, expect};
use kinds::Count;
use ledger::{Bank, Grant, Head, Ledger, Refusal};

// The tables are arrays, whose lengths a trial gives.
#[derive(Drop)]
pub struct Books<const B: usize, const G: usize> {
    pub head: Head,
    pub banks: [Bank<Count>; B],
    pub grants: [Grant<Count>; G],
    pub place: Count,
}

// A call of a ledger of counts; a trial stands on the ledger alone, so it has no command of a script.
#[derive(Clone, Copy)]
pub enum Call {
    // With this endowment.
    SetUp(u32),
    // Under this parent, in this row, with this limit.
    Open(u32, u32, u32),
    // From this bank, into this row, this amount.
    Buy(u32, u32, u32),
    // The grant of this row and serial.
    Back(u32, u32),
    Reclaim(u32),
    HandUp(u32),
    Stock,
}

impl<const B: usize, const G: usize> Books<B, G> {
    // Books in which something stands everywhere.
    pub fn scribbled() -> Self {
        Books {
            head: Head { last_serial: 9 },
            banks: [bank(7, 3); B],
            grants: [grant(7, 8, 3); G],
            place: count(77),
        }
    }

    // Books as they stand now. A head is never copied, so it has no Clone to derive one from.
    fn copied(&self) -> Self {
        Books {
            head: Head {
                last_serial: self.head.last_serial,
            },
            banks: self.banks,
            grants: self.grants,
            place: self.place,
        }
    }

    pub fn put_bank(&mut self, row: usize, bank: Bank<Count>) {
        put(&mut self.banks, row, bank);
    }

    pub fn put_grant(&mut self, row: usize, grant: Grant<Count>) {
        put(&mut self.grants, row, grant);
    }

    // This bank stands in the row.
    pub fn has_bank(&self, row: usize, bank: Bank<Count>) -> Result<(), Seen> {
        stands(&self.banks, row, &bank, Part::Banks)
    }

    // This grant stands in the row.
    pub fn has_grant(&self, row: usize, grant: Grant<Count>) -> Result<(), Seen> {
        stands(&self.grants, row, &grant, Part::Grants)
    }

    // This amount stands in the caller's place.
    pub fn has_place(&self, value: u32) -> Result<(), Seen> {
        expect(self.place.value() == value, Part::Place)
    }

    // All is as in `other`.
    pub fn is_as(&self, other: &Self) -> Result<(), Seen> {
        expect(self.head == other.head, Part::Head)?;
        expect(self.banks == other.banks, Part::Banks)?;
        expect(self.grants == other.grants, Part::Grants)?;
        self.has_place(other.place.value())
    }

    fn ask(&mut self, call: Call) -> Result<u32, Refusal> {
        let mut ledger = Ledger {
            head: &mut self.head,
            banks: &mut self.banks,
            grants: &mut self.grants,
        };
        match call {
            Call::SetUp(endowment) => ledger.set_up(count(endowment)),
            Call::Open(parent, child, limit) => ledger.open(parent, child, count(limit)),
            Call::Buy(bank, row, amount) => ledger.buy(bank, row, count(amount)),
            Call::Back(row, serial) => ledger.give_back(row, serial),
            Call::Reclaim(bank) => ledger.reclaim(bank, &mut self.place),
            Call::HandUp(bank) => ledger.hand_up(bank),
            Call::Stock => ledger.stock(&mut self.place),
        }
    }

    // The call is accepted with this result.
    pub fn accepts(&mut self, call: Call, expected: u32) -> Result<(), Seen> {
        match self.ask(call) {
            Ok(seen) if seen == expected => Ok(()),
            answer => Err(Seen::Answer(answer)),
        }
    }

    // The call is refused with this number at this place, and changes nothing.
    pub fn refuses(&mut self, call: Call, number: u32, place: u32) -> Result<(), Seen> {
        let before = self.copied();
        match self.ask(call) {
            Err(refusal) if refusal.number() == number && refusal.place() == place => {
                self.is_as(&before)
            }
            answer => Err(Seen::Answer(answer)),
        }
    }
}
