// Law D: the segment read by structure is the segment read byte by byte. Proofs only.
#![tactic(auto)]
