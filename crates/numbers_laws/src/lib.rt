// The game with actual numbers and the symbolic game agree: theorems in proofs/, nothing to run.
#![tactic(auto)]
