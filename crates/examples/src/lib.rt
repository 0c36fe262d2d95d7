// The examples that document 01 marks [P], as one table.
// The function does nothing; its contract states the theorem.
#![tactic(auto)]

ghost use Rattle.examples.specs.Examples.{Examples};

// Every case of the table of specs/Examples holds.
#[tactic(auto, using(crate::proofs::Table::examples))]
pub fn examples_hold()
    ensures { Examples }
{}
