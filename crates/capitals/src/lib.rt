// Theorems alone: the case of ASCII letters changes neither reading of a colour.
#![tactic(auto)]

ghost use Rattle.capitals.specs.Capitals.{Capitals};

// Does nothing: its contract is the theorem.
#[tactic(auto, using(crate::proofs::Proved::capitals))]
pub fn capitals()
    ensures { Capitals }
{}
