// Q-8: the sheet of a log, and of many, from their histories alone. There is no code here.
#![tactic(auto)]
