// Definitions of marks in a table that find the positions of a certificate, in specs/, and their laws, in proofs/; nothing to run.
#![tactic(auto)]
