// What reclaim does to the two tables: it frees the rows marked.
ghost use Rattle.std.specs.Prelude.{◌≡◌, ◌&&◌};
ghost use Rattle.tables.specs.Rows.{each_at, held, freed_bank};
ghost use Rattle.tables.specs.Tables.{free_grant};
ghost use Rattle.ledger.specs.Passes.{Rewritten};
ghost use Rattle.ledger.specs.Posts.{marked};

use crate::passes::rewrite;
use kind::Kind;
use tables::{Bank, Grant};

// Is the row marked?
fn is_marked(marks: &[bool], row: usize) -> bool
    ensures { result ≡ marked marks.now row }
{
    marks.get(row).copied().unwrap_or(false)
}

// Is the row live, and marked?
fn is_gone<K: Kind>(bank: &Bank<K>, row: usize, gone: &[bool]) -> bool
    ensures { result ≡ (bank.now.live && marked gone.now row) }
{
    bank.live && is_marked(gone, row)
}

// Frees the marked banks. A loop of its own, and no pass with `hand_up_banks`: only the rows that go are written.
pub(crate) fn free_banks<K: Kind>(banks: &mut [Bank<K>], gone: &[bool])
    ensures { banks.new ≡ each_at (freed_bank K.Kind.answers (marked gone.now)) 0 banks.old }
{
    for (row, bank) in banks.iter_mut().enumerate() {
        if is_gone(bank, row, gone) {
            *bank = Bank::free();
        }
    }
}

// Frees the grants of the marked banks, and answers how many.
pub(crate) fn free_grants<K: Kind>(grants: &mut [Grant<K>], gone: &[bool]) -> usize
    ensures { Rewritten (held (marked gone.now)) (λ _. free_grant K.Kind.answers.empty) grants.old grants.new result }
{
    rewrite(
        grants,
        |grant| grant.live && is_marked(gone, grant.bank as usize),
        |_| Grant::free(),
    )
}
