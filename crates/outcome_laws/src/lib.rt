// Laws of the outcomes, in proofs/, with one definition of their own in specs/; nothing to run.
#![tactic(auto)]
