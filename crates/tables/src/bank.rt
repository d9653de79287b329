// A row of the table of banks: what it is asked, and what becomes of it.
ghost use Rattle.tables.specs.Rows.{row_over, row_short, handed_bank};
ghost use Rattle.tables.specs.Tables.{free_bank};
ghost use Rattle.std.specs.Prelude.{◌≡◌};

use crate::rows::Bank;
use kind::Kind;

impl<K: Kind> Bank<K> {
    // A free row.
    pub fn free() -> Self
        ensures { result ≡ free_bank K.Kind.answers.empty }
    {
        Bank {
            live: false,
            parent: 0,
            limit: K::empty(),
            used: K::empty(),
        }
    }

    // Does `amount` not fit the use, or does the limit not hold their join?
    pub fn is_over(&self, amount: &K) -> bool
        ensures { result ≡ row_over K.Kind.answers amount.now self.now }
    {
        !self.used.fits(amount) || !self.limit.holds(&self.used.join(amount))
    }

    // Does the use not hold `amount`?
    pub fn is_short(&self, amount: &K) -> bool
        ensures { result ≡ row_short K.Kind.answers amount.now self.now }
    {
        !self.used.holds(amount)
    }

    // This row, with its number, once bank `from` is handed up to its parent `to`.
    pub fn handed_up(self, row: usize, from: u32, to: u32) -> Self
        ensures { result ≡ handed_bank K.Kind.answers from to row self }
    {
        if row == from as usize {
            return Bank::free();
        }
        if self.live && row != 0 && self.parent == from {
            return Bank { parent: to, ..self };
        }
        self
    }
}
