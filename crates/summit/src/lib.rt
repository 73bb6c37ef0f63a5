// No code: from the contracts of start, feed, finish and lookup to demands 2 and 3, in specs/ and proofs/.
#![tactic(auto)]
