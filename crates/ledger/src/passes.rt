// Passes over a table, row by row.
ghost use Rattle.std.specs.Prelude.{◌≡◌, Bool, length, replicate};
ghost use Rattle.ledger.specs.Passes.{Tells, Rewritten};

// Puts `row` in each place.
pub(crate) fn fill<R: Copy>(rows: &mut [R], row: R)
    ensures { rows.new ≡ replicate (length rows.old) row }
{
    for place in rows.iter_mut() {
        *place = row;
    }
}

// Rewrites each row that passes the test, and answers how many do.
pub(crate) fn rewrite<R: Copy, T: Fn(&R) -> bool, C: Fn(&R) -> R>(
    rows: &mut [R],
    test: T,
    change: C,
) -> usize
    requires tests { T.IsAlwaysCallable test }
    requires changes { C.IsAlwaysCallable change }
    ensures { (t : R → Bool) (f : R → R) → Tells T.Fn test t → Tells C.Fn change f → Rewritten t f rows.old rows.new result }
{
    let mut count = 0;
    for row in rows.iter_mut() {
        if test(row) {
            *row = change(row);
            count += 1;
        }
    }
    count
}
