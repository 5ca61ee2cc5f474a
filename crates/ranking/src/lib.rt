// The qualities of a patch from worst to best, and when such a list is larger than another; nothing here runs.
#![tactic(auto)]
