// The answer's lines, word by word, for every number. There is no code here.
#![tactic(auto)]
