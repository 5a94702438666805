// The marked cases of 01, "Sample pairs": nothing to run, one theorem in proofs/.
#![tactic(auto)]
