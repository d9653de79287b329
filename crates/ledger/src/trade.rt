// The calls of a branch's day: open, buy, give back, and ask for the stock.
ghost use Rattle.ledger.specs.Posts.{lent, viewed, Meets, Places, SameParts};
ghost use Rattle.rules.specs.Rules.{opens, buys, backs, stocks};

use crate::ledger::{Ledger, View};
use crate::uses::change_uses;
use kind::Kind;
use tables::{Bank, Grant, Refusal};

impl<K: Kind> Ledger<'_, K> {
    // Opens a bank under a parent, in a free row.
    pub fn open(&mut self, parent: u32, child: u32, limit: K) -> Result<u32, Refusal>
        ensures same { SameParts self.old self.new }
        ensures meets { Meets (opens K.Kind.answers (lent self.old) parent child limit) result (lent self.new) }
    {
        self.check_open(parent, child)?;
        self.banks[child as usize] = Bank {
            live: true,
            parent,
            limit,
            used: K::empty(),
        };
        Ok(0)
    }

    // Buys an amount from a bank into a free row of grants, and answers the serial of the grant.
    pub fn buy(&mut self, bank: u32, row: u32, amount: K) -> Result<u32, Refusal>
        ensures same { SameParts self.old self.new }
        ensures meets { Meets (buys K.Kind.answers (lent self.old) bank row amount) result (lent self.new) }
    {
        let chain = self.check_buy(bank, row, &amount)?;
        change_uses(self.banks, chain.as_slice(), |used| used.join(&amount));
        let serial = self.head.last_serial + 1;
        self.head.last_serial = serial;
        self.grants[row as usize] = Grant {
            live: true,
            bank,
            serial,
            amount,
        };
        Ok(serial)
    }

    // Gives back the grant of that row and serial, two plain numbers as the owner keeps them.
    pub fn give_back(&mut self, row: u32, serial: u32) -> Result<u32, Refusal>
        ensures same { SameParts self.old self.new }
        ensures meets { Meets (backs K.Kind.answers (lent self.old) row serial) result (lent self.new) }
    {
        let chain = self.check_back(row, serial)?;
        let at = row as usize;
        let amount = self.grants[at].amount;
        change_uses(self.banks, chain.as_slice(), |used| {
            used.remainder(&amount)
        });
        self.grants[at] = Grant::free();
        Ok(0)
    }

    // Puts what the root bank has left in the caller's place, as a view of the ledger does.
    pub fn stock(&self, place: &mut K) -> Result<u32, Refusal>
        ensures meets { Meets (stocks K.Kind.answers (lent self.now)) result (lent self.now) }
        ensures places { Places (stocks K.Kind.answers (lent self.now)) place.old place.new }
    {
        let view = View {
            head: &*self.head,
            banks: &*self.banks,
            grants: &*self.grants,
        };
        view.stock(place)
    }
}

impl<K: Kind> View<'_, K> {
    // Puts what the root bank has left in the caller's place.
    pub fn stock(&self, place: &mut K) -> Result<u32, Refusal>
        ensures meets { Meets (stocks K.Kind.answers (viewed self.now)) result (viewed self.now) }
        ensures places { Places (stocks K.Kind.answers (viewed self.now)) place.old place.new }
    {
        self.check_stock()?;
        let root = &self.banks[0];
        *place = root.limit.remainder(&root.used);
        Ok(0)
    }
}
