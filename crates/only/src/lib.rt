// Theorems alone: nothing but the public documents' texts is read, and what they disallow is refused.
#![tactic(auto)]

ghost use Rattle.only.specs.Only.{Only};

// Does nothing: its contract is the theorem.
#[tactic(auto, using(crate::proofs::Proved::only))]
pub fn only()
    ensures { Only }
{}
