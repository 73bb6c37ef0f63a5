// The law of leaps: what a machine inside the segment's makes of bytes, the segment's makes of them. Proofs only.
#![tactic(auto)]
