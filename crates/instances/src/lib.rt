// Blocks that show what can happen; nothing here runs.
#![tactic(auto)]
