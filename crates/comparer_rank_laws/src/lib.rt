// Definitions of ranks found pass by pass, in specs/, and their laws, in proofs/; nothing to run.
#![tactic(auto)]
