// A bundle of two kinds is a kind, each side by itself.
ghost use Rattle.kinds.specs.Bundles.{BothMake, bundle_answers};
ghost use Rattle.kinds.specs.Sides.{sides_tell};
ghost use Rattle.std.proofs.Common.{rules};

use crate::bundle::Bundle;
use kind::Kind;

impl<A: Kind, B: Kind> Kind for Bundle<A, B> {
    ghost makes = { BothMake A.Kind.makes B.Kind.makes };

    ghost answers = { bundle_answers A.Kind.answers B.Kind.answers };

    ghost functional = { Prim.search rules };

    ghost commutative = { Prim.search rules };

    ghost associative = { λ x y z u w p q.
        let l = A.Kind.associative x.first y.first z.first u.first w.first p.0 q.0 in
        let r = B.Kind.associative x.second y.second z.second u.second w.second p.1 q.1 in
        (record { first = l.0; second = r.0 }, ((l.1.0, r.1.0), (l.1.1, r.1.1))) };

    ghost neutral = { Prim.search rules };

    ghost cancellative = { Prim.search rules };

    ghost positive = { Prim.search rules };

    ghost tells_empty = { Prim.search rules };

    ghost tells_fit = { λ x y.
        sides_tell _ _ _ _ (A.Kind.tells_fit x.first y.first) (B.Kind.tells_fit x.second y.second) };

    ghost gives_join = { Prim.search rules };

    ghost tells_part = { λ z x.
        sides_tell _ _ _ _ (A.Kind.tells_part z.first x.first) (B.Kind.tells_part z.second x.second) };

    ghost gives_remainder = { Prim.search rules };

    fn empty() -> Self {
        Bundle {
            first: A::empty(),
            second: B::empty(),
        }
    }

    fn is_empty(&self) -> bool {
        self.first.is_empty() && self.second.is_empty()
    }

    // Side by side, since an amount of some kind need not have `==`.
    fn same(&self, other: &Self) -> bool {
        self.first.same(&other.first) && self.second.same(&other.second)
    }

    fn fits(&self, other: &Self) -> bool {
        self.first.fits(&other.first) && self.second.fits(&other.second)
    }

    fn join(&self, other: &Self) -> Self {
        if self.fits(other) {
            Bundle {
                first: self.first.join(&other.first),
                second: self.second.join(&other.second),
            }
        } else {
            Self::empty()
        }
    }

    fn holds(&self, part: &Self) -> bool {
        self.first.holds(&part.first) && self.second.holds(&part.second)
    }

    fn remainder(&self, part: &Self) -> Self {
        if self.holds(part) {
            Bundle {
                first: self.first.remainder(&part.first),
                second: self.second.remainder(&part.second),
            }
        } else {
            Self::empty()
        }
    }
}
