// A row of the table of grants: what it is asked, and what becomes of it.
ghost use Rattle.tables.specs.Rows.{held};
ghost use Rattle.tables.specs.Tables.{free_grant};
ghost use Rattle.std.specs.Prelude.{◌≡◌, nat_eq};

use crate::rows::Grant;
use kind::Kind;

impl<K: Kind> Grant<K> {
    // A free row.
    pub fn free() -> Self
        ensures { result ≡ free_grant K.Kind.answers.empty }
    {
        Grant {
            live: false,
            bank: 0,
            serial: 0,
            amount: K::empty(),
        }
    }

    // Is this a live grant of `bank`?
    pub fn is_in(&self, bank: u32) -> bool
        ensures { result ≡ held (nat_eq bank) self.now }
    {
        self.live && bank == self.bank
    }
}
