// The segment read by structure: definitions only.
#![tactic(auto)]
