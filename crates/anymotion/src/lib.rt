// What any-motion promises, from the events alone and in the words of 01, apart from the definitions that the detector's code is proved
// against. There is no code here.
#![tactic(auto)]
