// What is printed of a log, from its events alone. There is no code here.
#![tactic(auto)]
