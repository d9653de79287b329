// Set-up: a ledger begins.
ghost use Rattle.ledger.specs.Posts.{lent, Meets, SameParts};
ghost use Rattle.rules.specs.Law.{KeepsBooks};
ghost use Rattle.rules.specs.Rules.{sets_up};

use crate::ledger::Ledger;
use crate::passes::fill;
use kind::Kind;
use tables::{Bank, Grant, Refusal};

impl<K: Kind> Ledger<'_, K> {
    // Frees every row, and opens the root bank with the endowment as its limit.
    pub fn set_up(&mut self, endowment: K) -> Result<u32, Refusal>
        ensures same { SameParts self.old self.new }
        ensures meets { Meets (sets_up K.Kind.answers endowment (lent self.old)) result (lent self.new) }
        ensures books { KeepsBooks K.Kind.makes K.Kind.answers endowment result (lent self.new) }
    {
        self.check_set_up()?;
        fill(self.banks, Bank::free());
        fill(self.grants, Grant::free());
        self.banks[0] = Bank {
            live: true,
            parent: 0,
            limit: endowment,
            used: K::empty(),
        };
        self.head.last_serial = 0;
        Ok(0)
    }
}
