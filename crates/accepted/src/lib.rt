// What an accepted call leaves, and which numbers come; nothing here runs.
#![tactic(auto)]
