// Counts as a kind: they add up as long as the sum is a count.
ghost use Rattle.std.specs.Prelude.{◌≡◌, ◌+◌, ◌-◌, ◌<◌, ◌≤◌, Decides, MatchOption, nat_le, refl};
ghost use Rattle.count.specs.Counts.{Sums, count_answers, within_top};
ghost use Rattle.count.specs.Top.{top};
ghost use Rattle.std.proofs.Common.{arith, rules};
ghost use Rattle.count.specs.Same;
ghost use Rattle.std.proofs.lemmas.Bool.{leb-true, le-leb};
ghost use Rattle.std.proofs.lemmas.Bool.Decides.{nat_tests};
ghost use Rattle.kind.proofs.Decisions.{pick};

use crate::count::{Count, TOP};
use kind::Kind;

impl Count {
    // The sum, if it is a count.
    fn sum(&self, other: &Count) -> Option<Count>
        ensures { MatchOption result (top < self.now.value + other.now.value) (λ c. c.value ≡ self.now.value + other.now.value) }
    {
        Count::try_from(self.value + other.value).ok()
    }
}

impl Kind for Count {
    ghost makes = { Sums };

    ghost answers = { count_answers };

    ghost functional = { Prim.grind (arith, Same.same) };

    ghost commutative = { Prim.grind arith };

    ghost associative = { λ x y z u w p q. (record { value = y.value + z.value; capped = omega (arith, w.capped) }, (refl, omega arith)) };

    ghost neutral = { Prim.grind arith };

    ghost cancellative = { Prim.grind (arith, Same.same) };

    ghost positive = { Prim.grind (arith, Same.same) };

    ghost tells_empty = { Prim.search (rules, Same.same) };

    ghost tells_fit = { λ x y. (
      λ e. (record { value = x.value + y.value; capped = leb-true _ _ e }, refl),
      λ h. le-leb (x.value + y.value) top (omega (arith, h.0.capped, h.1)),
    ) };

    ghost gives_join = { Prim.grind (arith, nat_tests, Same.same) };

    ghost tells_part = { λ z x. (
      λ e. let le : x.value ≤ z.value = leb-true _ _ e in
          (record { value = z.value - x.value; capped = omega (arith, z.capped) }, omega arith),
      λ h. le-leb x.value z.value (omega (arith, h.1)),
    ) };

    ghost gives_remainder = { λ z x.
        let d = z.value - x.value in
        let same-d : within_top d ≡ d = Same.within_top_in d (omega (arith, z.capped)) in
        pick (nat_le x.value z.value) _ _ (λ e. Prim.grind (arith, nat_tests)) (λ e. Same.same _ _ (Prim.grind (arith, nat_tests))) };

    fn empty() -> Self {
        Count { value: 0 }
    }

    fn is_empty(&self) -> bool {
        self.value == 0
    }

    fn same(&self, other: &Self) -> bool
        ensures equal { Decides result (self.now ≡ other.now) }
        ensures by_value { Decides result (self.now.value ≡ other.now.value) }
    {
        self == other
    }

    fn fits(&self, other: &Self) -> bool {
        self.sum(other).is_some()
    }

    fn join(&self, other: &Self) -> Self {
        self.sum(other).unwrap_or(Self::empty())
    }

    fn holds(&self, part: &Self) -> bool {
        part.value <= self.value
    }

    fn remainder(&self, part: &Self) -> Self {
        // A part that is too large leaves 0.
        Count {
            value: self.value.saturating_sub(part.value),
        }
    }
}
