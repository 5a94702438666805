// How the parts of a comparison fit together: theorems in proofs/, nothing to run.
#![tactic(auto)]
