// Laws of the task file: theorems in proofs/, nothing to run.
#![tactic(auto)]
