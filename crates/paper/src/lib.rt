// What 01 says of registers, samples and readouts, over the events alone: it is stated in specs/, and proofs/ holds the definitions that the
// contracts cite against it. There is no code here.
#![tactic(auto)]
