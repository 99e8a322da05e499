// The records of a log, and the events that they come to. There is no code here.
#![tactic(auto)]
