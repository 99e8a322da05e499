// No code: what the crates below promise, taken together. The theorems are in proofs/.
#![tactic(auto)]
