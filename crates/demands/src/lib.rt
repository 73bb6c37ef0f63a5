// Law T, that the descent and the tree say the same; and the demands as theorems.
#![tactic(auto)]
