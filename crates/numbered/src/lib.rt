// The state as numbers at fixed places. Definitions and proofs only.
#![tactic(auto)]
