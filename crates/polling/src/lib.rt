// Reads that do not disturb, Q-13: stated in specs/ and proved in proofs/. There is no code here.
#![tactic(auto)]
