// Definitions and laws of exploring in a table, in specs/ and proofs/; nothing to run.
#![tactic(auto)]
