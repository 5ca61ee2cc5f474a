// What is demanded of any kernel, and why ours meets it; nothing here runs.
#![tactic(auto)]
