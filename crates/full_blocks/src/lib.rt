// Theorems about blocks with nearly 60 rows; nothing that runs.
#![tactic(auto)]
