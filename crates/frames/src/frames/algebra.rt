// Frames as a kind: they unite if they share none.
ghost use Rattle.frames.specs.FrameSets.{frame, Unites, frames_answers};
ghost use Rattle.frames.specs.Gathered.{gathered, missing};
ghost use Rattle.frames.specs.Sizes.{frame_count};
ghost use Rattle.sets.specs.Members.{SameMembers, OneOfTwo};
ghost use Rattle.std.specs.Prelude.{◌≡◌, true, Decides, bit_and};
ghost use Rattle.sets.proofs.Unions as unions;
ghost use Rattle.frames.specs.FrameFacts.{frame_sets};

use crate::frames::{BYTES, Frames};
use kind::Kind;
use std::array;

impl Frames {
    // The frames that are in one of the two but not in both.
    fn difference(&self, other: &Frames) -> Frames
        ensures members { OneOfTwo frame_count frame self.now other.now result }
        ensures joined { frames_answers.fits self.now other.now ≡ true → result ≡ frames_answers.join self.now other.now }
        ensures left { frames_answers.holds self.now other.now ≡ true → result ≡ frames_answers.remainder self.now other.now }
    {
        Frames {
            bytes: array::from_fn(|i| self.bytes[i] ^ other.bytes[i]),
        }
    }

    // The bits of the frames that both have, gathered in one byte: 0 if there is no such frame.
    // One test at the end takes half the time of `all`, which tests each byte.
    fn shared_bits(&self, other: &Frames) -> u8
        ensures { result ≡ gathered bit_and self.now.bytes other.now.bytes }
    {
        self.bytes
            .iter()
            .zip(&other.bytes)
            .fold(0, |shared, (x, y)| shared | (x & y))
    }

    // The bits of the frames of `part` that this lacks, gathered in one byte: 0 if there is no such frame. An expression
    // each: one function for both would take the operation on two bytes as a closure.
    fn missing_bits(&self, part: &Frames) -> u8
        ensures { result ≡ gathered missing self.now.bytes part.now.bytes }
    {
        self.bytes
            .iter()
            .zip(&part.bytes)
            .fold(0, |missing, (x, y)| missing | (!x & y))
    }
}

impl Kind for Frames {
    ghost makes = { Unites };

    ghost answers = { frames_answers };

    ghost functional = { unions.functional frame_sets };

    ghost commutative = { unions.commutative frame_sets };

    ghost associative = { unions.associative frame_sets };

    ghost neutral = { unions.neutral frame_sets };

    ghost cancellative = { unions.cancellative frame_sets };

    ghost positive = { unions.positive frame_sets };

    ghost tells_empty = { unions.tells_empty frame_sets };

    ghost tells_fit = { unions.tells_fit frame_sets };

    ghost gives_join = { unions.gives_join frame_sets };

    ghost tells_part = { unions.tells_part frame_sets };

    ghost gives_remainder = { unions.gives_remainder frame_sets };

    fn empty() -> Self {
        Frames { bytes: [0; BYTES] }
    }

    fn is_empty(&self) -> bool {
        *self == Self::empty()
    }

    fn same(&self, other: &Self) -> bool
        ensures equal { Decides result (self.now ≡ other.now) }
        ensures by_members { Decides result (SameMembers frame_count frame self.now other.now) }
    {
        self == other
    }

    #[tactic(auto, using(crate::proofs::Gathered::shared_none))]
    fn fits(&self, other: &Self) -> bool {
        self.shared_bits(other) == 0
    }

    // As for windows: one function for this and for `remainder` would need a trait of its own, with `difference` and what it says.
    fn join(&self, other: &Self) -> Self {
        if self.fits(other) {
            self.difference(other)
        } else {
            Self::empty()
        }
    }

    #[tactic(auto, using(crate::proofs::Gathered::missing_none))]
    fn holds(&self, part: &Self) -> bool {
        self.missing_bits(part) == 0
    }

    fn remainder(&self, part: &Self) -> Self {
        if self.holds(part) {
            self.difference(part)
        } else {
            Self::empty()
        }
    }
}
