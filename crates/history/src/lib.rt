// What a history says of the device: demand 3 is stated in specs/ and proved in proofs/. There is no code here.
#![tactic(auto)]
