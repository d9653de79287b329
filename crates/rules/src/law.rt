// A theorem on the definitions: the function stands for what its contract states.
ghost use Rattle.std.specs.Prelude.{ℕ, ◌≤◌, List};
ghost use Rattle.rules.specs.Law.{Books};
ghost use Rattle.rules.specs.Rules.{Call, fresh};

use kind::Kind;

// A ledger of any kind, set up with tables of the right lengths, keeps its books through every list of calls.
pub fn lists_keep_books<K: Kind>(endowment: K)
    ensures { (banks grants : ℕ) → 1 ≤ banks → banks ≤ 64 → 1 ≤ grants → grants ≤ 1024 → (calls : List (Call K)) → Books K.Kind.makes K.Kind.answers endowment (fresh K.Kind.answers endowment banks grants) calls }
{}
