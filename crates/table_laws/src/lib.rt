// Definitions of what the lent table holds, in specs/, and their laws, in proofs/; nothing to run.
#![tactic(auto)]
