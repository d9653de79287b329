// A bank with all that stands beneath it, as closing it looks them up: every row of the table once.
ghost use Rattle.std.specs.Prelude.{◌≡◌, ◌≤◌, length, IfOk, None, OnOk};
ghost use Rattle.std.specs.Result.{result_err};
ghost use Rattle.tables.specs.Tables.{under};
ghost use Rattle.tables.specs.Rows.{lost_bank};
ghost use Rattle.tables.specs.declared.refusal.Refusal.TheVariants.{OutOfOrder};
ghost use Rattle.rules.specs.Rules.{refuse_at};
ghost use Rattle.ledger.specs.Posts.{Marked};

use crate::chains::{Chain, chain_of};
use kind::Kind;
use tables::{Bank, Refusal};

// Room for a mark on each row of the largest table, since nothing allocates.
pub(crate) type Marks = [bool; 64];

// The chain of a bank, and marks on the rows of that bank and of those beneath it.
#[derive(Drop)]
pub(crate) struct Branch {
    pub(crate) chain: Chain,
    pub(crate) marks: Marks,
}

// Marks each bank that is `bank` or stands beneath it, where every live bank has a whole chain.
pub(crate) fn marks_under<K: Kind>(banks: &[Bank<K>], bank: u32) -> Result<Marks, Refusal>
    requires { length banks.now ≤ 64 }
    ensures due { result_err result ≡ refuse_at (lost_bank K.Kind.answers banks.now) OutOfOrder }
    ensures whole { OnOk result (lost_bank K.Kind.answers banks.now ≡ None) }
    ensures marks { IfOk result (λ m. Marked m (under K.Kind.answers.empty banks.now bank)) }
{
    let mut marks = [false; 64];
    for (row, at) in banks.iter().enumerate() {
        match chain_of(banks, row as u32) {
            Some(chain) => marks[row] = chain.as_slice().contains(&bank),
            None if at.live => return Err(Refusal::OutOfOrder(row as u32)),
            None => {}
        }
    }
    Ok(marks)
}
