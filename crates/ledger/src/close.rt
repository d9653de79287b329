// The calls that close a bank: reclaim, and hand up.
ghost use Rattle.ledger.specs.Posts.{lent, Meets, Places, SameParts};
ghost use Rattle.rules.specs.Rules.{reclaims, hands_up};

use crate::chains::above;
use crate::freeing::{free_banks, free_grants};
use crate::handing::{hand_up_banks, hand_up_grants};
use crate::ledger::Ledger;
use crate::uses::change_uses;
use kind::Kind;
use tables::Refusal;

impl<K: Kind> Ledger<'_, K> {
    // Closes a bank and all beneath it with their grants, puts what they had in use in the caller's place, and answers how many grants ended.
    pub fn reclaim(&mut self, bank: u32, place: &mut K) -> Result<u32, Refusal>
        ensures same { SameParts self.old self.new }
        ensures meets { Meets (reclaims K.Kind.answers (lent self.old) bank) result (lent self.new) }
        ensures places { Places (reclaims K.Kind.answers (lent self.old) bank) place.old place.new }
    {
        let branch = self.check_reclaim(bank)?;
        let reclaimed = self.banks[bank as usize].used;
        change_uses(
            self.banks,
            above(&branch.chain),
            |used| used.remainder(&reclaimed),
        );
        free_banks(self.banks, &branch.marks);
        let count = free_grants(self.grants, &branch.marks);
        *place = reclaimed;
        Ok(count as u32)
    }

    // Closes a bank, hands its banks and grants up to its parent, and answers how many grants moved.
    pub fn hand_up(&mut self, bank: u32) -> Result<u32, Refusal>
        ensures same { SameParts self.old self.new }
        ensures meets { Meets (hands_up K.Kind.answers (lent self.old) bank) result (lent self.new) }
    {
        self.check_closing(bank)?;
        let parent = self.banks[bank as usize].parent;
        hand_up_banks(self.banks, bank, parent);
        let count = hand_up_grants(self.grants, bank, parent);
        Ok(count as u32)
    }
}
