// What a replacement of rows does to a table of rows; nothing here runs.
#![tactic(auto)]
