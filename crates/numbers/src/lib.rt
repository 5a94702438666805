// The game with actual object numbers (01, "Rounds with actual numbers"): definitions in specs/, nothing to run.
#![tactic(auto)]
