// The triangulations of a ring or a chain and the best of them; nothing here runs.
#![tactic(auto)]
