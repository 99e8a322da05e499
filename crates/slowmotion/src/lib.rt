// What slow motion and no-motion promise, from the events alone and in the words of Q-6, apart from the definitions that their code is proved
// against. There is no code here.
#![tactic(auto)]
