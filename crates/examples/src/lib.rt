// Worked examples of the definitions, all in one theorem.
#![tactic(auto)]

ghost use Rattle.examples.specs.Examples.{Examples};

// Each example holds of the definitions that the contracts of the kinds cite.
pub fn examples_hold()
    ensures { Examples }
{}
