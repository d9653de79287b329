// What hand up does to the two tables.
ghost use Rattle.std.specs.Prelude.{◌≡◌, nat_eq};
ghost use Rattle.tables.specs.Rows.{each_at, held, moved, handed_bank};
ghost use Rattle.ledger.specs.Passes.{Rewritten};

use crate::passes::rewrite;
use kind::Kind;
use tables::{Bank, Grant};

// Closes bank `from`, and hands the banks under it up to `to`.
pub(crate) fn hand_up_banks<K: Kind>(banks: &mut [Bank<K>], from: u32, to: u32)
    ensures { banks.new ≡ each_at (handed_bank K.Kind.answers from to) 0 banks.old }
{
    for (row, bank) in banks.iter_mut().enumerate() {
        *bank = bank.handed_up(row, from, to);
    }
}

// Moves the grants of bank `from` to bank `to`, and answers how many.
pub(crate) fn hand_up_grants<K: Kind>(grants: &mut [Grant<K>], from: u32, to: u32) -> usize
    ensures { Rewritten (held (nat_eq from)) (moved to) grants.old grants.new result }
{
    rewrite(
        grants,
        |grant| grant.is_in(from),
        |grant| Grant { bank: to, ..*grant },
    )
}
