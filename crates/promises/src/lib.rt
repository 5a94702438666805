// What the product promises: specs/Promises.antt states it, proofs/Kept.antt shows it. Nothing to run.
#![tactic(auto)]
