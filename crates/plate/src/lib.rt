// Theorems about the sample plate; nothing that runs.
#![tactic(auto)]
