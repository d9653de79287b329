// Uses changed along a chain, row by row.
ghost use Rattle.std.specs.Prelude.{◌≡◌, ◌<◌, length};
ghost use Rattle.std.specs.List.{AllByRecursion};
ghost use Rattle.tables.specs.Rows.{change_uses};
ghost use Rattle.rules.specs.Law.{Distinct};
ghost use Rattle.ledger.specs.Passes.{Tells};

use kind::Kind;
use tables::Bank;

// Changes the use of each bank on the list.
pub(crate) fn change_uses<K: Kind, C: Fn(&K) -> K>(banks: &mut [Bank<K>], rows: &[u32], change: C)
    requires changes { C.IsAlwaysCallable change }
    requires within { AllByRecursion (λ x. x < length banks.old) rows.now }
    requires once { Distinct rows.now }
    ensures { (f : K → K) → Tells C.Fn change f → banks.new ≡ change_uses K.Kind.answers f rows.now banks.old }
{
    for row in rows {
        let at = *row as usize;
        let used = change(&banks[at].used);
        banks[at] = Bank { used, ..banks[at] };
    }
}
