// Laws of the definitions in fra, in proofs/, with one definition of their own in specs/; nothing to run.
#![tactic(auto)]
