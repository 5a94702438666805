// Definitions and laws of a set of keys in a table, in specs/ and proofs/; nothing to run.
#![tactic(auto)]
