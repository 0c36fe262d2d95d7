// Demand 2: every group that the rules admit is found, and nothing else. Demand 3: in every list of
// calls on one text that share an index, each call gives its plain answer.
// The functions do nothing; their contracts state the theorems.
#![tactic(auto)]

ghost use Rattle.histories.specs.EveryGroup.{EveryGroup};
ghost use Rattle.histories.specs.Histories.{Histories};
ghost use Rattle.histories.specs.Promises.{PromisedHistories};

// Demand 2, as specs/EveryGroup states it.
pub fn demand_2()
    ensures { EveryGroup }
{}

// Demand 3, as specs/Histories states it of the definitions that the promises cite, and specs/Promises of what meets the promises.
#[tactic(auto, using(crate::proofs::Demand3::demand_3, crate::proofs::Promised::promised_histories))]
pub fn demand_3()
    ensures of_definitions { Histories }
    ensures of_promises { PromisedHistories }
{}
