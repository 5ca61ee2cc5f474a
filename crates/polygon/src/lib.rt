// What it is to cut a polygon into triangles, and that trees say just this; nothing here runs.
#![tactic(auto)]
