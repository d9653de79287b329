// A kind of resource. An amount is one value of it, and equal amounts are the same value.
ghost use Rattle.kind.specs.Algebra.{Answers, Functional, Commutative, Associative, Neutral, Cancellative, Positive};
ghost use Rattle.kind.specs.Algebra.{TellsEmpty, TellsFit, GivesJoin, TellsPart, GivesRemainder};
ghost use Rattle.std.specs.Prelude.{◌≡◌, Decides};

pub trait Kind: Copy {
    // `makes x y z`: x and y make z.
    ghost makes: { Self → Self → Self → Type 0 };

    // What the questions below answer.
    ghost answers: { Answers Self };

    // The empty amount.
    fn empty() -> Self
        ensures { result ≡ answers.empty };

    // Is this the empty amount?
    fn is_empty(&self) -> bool
        ensures { result ≡ answers.is_empty self.now };

    // Are the two the same amount? An `==` promises an equivalence; this tells equality.
    fn same(&self, other: &Self) -> bool
        ensures { Decides result (self.now ≡ other.now) };

    // Do the two make some amount?
    fn fits(&self, other: &Self) -> bool
        ensures { result ≡ answers.fits self.now other.now };

    // What the two make, or the empty amount if they do not fit.
    fn join(&self, other: &Self) -> Self
        ensures { result ≡ answers.join self.now other.now };

    // Is `part` a part of this?
    fn holds(&self, part: &Self) -> bool
        ensures { result ≡ answers.holds self.now part.now };

    // What makes this together with `part`, or the empty amount if this does not hold it.
    fn remainder(&self, part: &Self) -> Self
        ensures { result ≡ answers.remainder self.now part.now };

    // The relation is a partial commutative monoid that cancels and has nothing below the empty amount.
    ghost functional: { Functional makes };

    ghost commutative: { Commutative makes };

    ghost associative: { Associative makes };

    ghost neutral: { Neutral makes answers.empty };

    ghost cancellative: { Cancellative makes };

    ghost positive: { Positive makes answers.empty };

    // The answers are the ones that the relation calls for.
    ghost tells_empty: { TellsEmpty answers };

    ghost tells_fit: { TellsFit makes answers };

    ghost gives_join: { GivesJoin makes answers };

    ghost tells_part: { TellsPart makes answers };

    ghost gives_remainder: { GivesRemainder makes answers };
}
