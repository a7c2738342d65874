// Theorems alone: demand 3 of the rows that a C call hands out.
#![tactic(auto)]

ghost use Rattle.join_rows.specs.JoinRows.{Demand3Rows};

#[tactic(auto, using(crate::proofs::Whole::demand_3_rows))]
pub fn demand_3_rows()
    ensures { Demand3Rows }
{}
