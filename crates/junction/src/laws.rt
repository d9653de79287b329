// A theorem on the definitions: the function stands for what its contract states.
ghost use Rattle.junction.specs.Verdicts.{VerdictsAreRight};

// A stage is added exactly when it fits, and what is said to be in its way is there.
pub fn verdicts_are_right()
    ensures { VerdictsAreRight }
{}
