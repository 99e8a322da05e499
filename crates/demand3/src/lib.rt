// Demand 3 of any chip with a FIFO: it is stated in specs/ and proved in proofs/. There is no code here.
#![tactic(auto)]
