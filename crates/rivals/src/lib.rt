// Useless kernels, and why they fail the demands; nothing here runs.
#![tactic(auto)]
