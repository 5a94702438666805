// Definitions of a proposed certificate by the places of its records, in specs/, and their laws, in proofs/; nothing to run.
#![tactic(auto)]
