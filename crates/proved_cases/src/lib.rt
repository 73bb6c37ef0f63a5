// Segments S and T of document 01, and its cases marked P: definitions and proofs only.
#![tactic(auto)]
