// The one priority call of a signal cycle: a bus or a tram may ask for it, and one at most has it.
#![tactic(auto)]

ghost use Rattle.priority.specs.Priorities.{Makes, priority_answers};
ghost use Rattle.std.proofs.Common.{rules};

use kind::Kind;

// An amount of it: no call, or the call. Two names, where an `Option` of nothing would have none.
#[derive(Clone, Copy, PartialEq)]
pub enum Priority {
    NoCall,
    Call,
}

impl Kind for Priority {
    ghost makes = { Makes };

    ghost answers = { priority_answers };

    ghost functional = { Prim.search rules };

    ghost commutative = { Prim.search rules };

    ghost associative = { Prim.search rules };

    ghost neutral = { Prim.search rules };

    ghost cancellative = { Prim.search rules };

    ghost positive = { Prim.search rules };

    ghost tells_empty = { Prim.search rules };

    ghost tells_fit = { Prim.search rules };

    ghost gives_join = { Prim.search rules };

    ghost tells_part = { Prim.search rules };

    ghost gives_remainder = { Prim.search rules };

    fn empty() -> Self {
        Self::NoCall
    }

    fn is_empty(&self) -> bool {
        matches!(self, Priority::NoCall)
    }

    fn same(&self, other: &Self) -> bool {
        self == other
    }

    fn fits(&self, other: &Self) -> bool {
        self.is_empty() || other.is_empty()
    }

    fn join(&self, other: &Self) -> Self {
        match (self, other) {
            (Priority::NoCall, amount) | (amount, Priority::NoCall) => *amount,
            (Priority::Call, Priority::Call) => Self::empty(),
        }
    }

    fn holds(&self, part: &Self) -> bool {
        part.is_empty() || !self.is_empty()
    }

    fn remainder(&self, part: &Self) -> Self {
        match part {
            Priority::NoCall => *self,
            Priority::Call => Self::empty(),
        }
    }
}
