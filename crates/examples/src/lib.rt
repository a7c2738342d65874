// Theorems alone: examples computed from the definitions.
#![tactic(auto)]

ghost use Rattle.examples.specs.Examples.{Examples};
ghost use Rattle.examples.specs.Shut.{Shut};

// What the readers answer for texts that were worked out by hand. Does nothing: its contract is the theorem.
#[tactic(auto, using(crate::proofs::Proved::examples))]
pub fn examples()
    ensures { Examples }
{}

// What wrong definitions would answer, and these do not.
#[tactic(auto, using(crate::proofs::Proved::shut))]
pub fn shut_out()
    ensures { Shut }
{}
