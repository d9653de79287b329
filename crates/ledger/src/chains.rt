// The chains of banks: from a row to its parent and so on up to row 0.
ghost use Rattle.std.specs.Prelude.{◌≡◌, ◌<◌, Bool, true, length};
ghost use Rattle.std.specs.List.{AllByRecursion};
ghost use Rattle.tables.specs.Tables.{bank_at, chain};
ghost use Rattle.tables.specs.Rows.{above, nearest};
ghost use Rattle.lists.specs.Listed.{listed};
ghost use Rattle.ledger.specs.Passes.{Tells};
ghost use Rattle.ledger.specs.Posts.{Climbed};

use kind::Kind;
use lists::FixedList;
use tables::Bank;

// No whole chain has more rows.
pub(crate) const DEPTH: usize = 16;

// The rows of a whole chain, the lowest first.
pub(crate) type Chain = FixedList<u32, DEPTH>;

// Does `bank` stand in the table, live?
pub(crate) fn is_live<K: Kind>(banks: &[Bank<K>], bank: u32) -> bool
    ensures is { result ≡ (bank_at K.Kind.answers.empty banks.now bank).live }
    ensures within { result ≡ true → bank < length banks.now }
{
    banks.get(bank as usize).is_some_and(|row| row.live)
}

// The chain of a bank, if it has a whole one.
pub(crate) fn chain_of<K: Kind>(banks: &[Bank<K>], bank: u32) -> Option<Chain>
    ensures { Climbed (chain K.Kind.answers.empty banks.now bank) result }
{
    let mut rows = Chain::new(0);
    let mut row = bank;
    'climb: while is_live(banks, row) {
        let Ok(()) = rows.push(row) else {
            return None;
        };
        if row == 0 {
            return Some(rows);
        }
        row = banks[row as usize].parent;
    }
    None
}

// All rows of a chain but the first.
pub(crate) fn above(chain: &Chain) -> &[u32]
    ensures { result.now ≡ above (listed chain.now) }
{
    match chain.as_slice() {
        [_, rest @ ..] => rest,
        [] => &[],
    }
}

// The first of the rows whose bank passes the test.
pub(crate) fn nearest<K: Kind, T: Fn(&Bank<K>) -> bool>(
    banks: &[Bank<K>],
    rows: &[u32],
    test: T,
) -> Option<u32>
    requires tests { T.IsAlwaysCallable test }
    requires within { AllByRecursion (λ x. x < length banks.now) rows.now }
    ensures { (t : Bank K → Bool) → Tells T.Fn test t → result ≡ nearest (λ b. t (bank_at K.Kind.answers.empty banks.now b)) rows.now }
{
    for row in rows {
        if test(&banks[*row as usize]) {
            return Some(*row);
        }
    }
    None
}
