// A whole number up to `TOP`; `number` makes and reads it, `algebra` has its answers as a kind.
pub mod algebra;
mod number;

ghost use Rattle.std.specs.Prelude.{◌≤◌};
ghost use Rattle.count.specs.Top.{top};

// The largest count.
pub const TOP: u32 = 1_000_000_000;

#[derive(Clone, Copy, PartialEq, Eq)]
pub struct Count {
    value: u32,
    ghost capped: { value ≤ top },
}
