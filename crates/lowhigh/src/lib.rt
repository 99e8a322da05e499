// What low-g and high-g promise, from the events alone and in the words of Q-5, apart from the definitions that their code is proved
// against. There is no code here.
#![tactic(auto)]
