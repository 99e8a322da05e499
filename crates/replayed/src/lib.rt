// What the replay prints of a log, from its events alone, and what they are. There is no code here.
#![tactic(auto)]
