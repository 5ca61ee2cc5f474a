// What a replacement of rows does to the marked faces of a table; nothing here runs.
#![tactic(auto)]
