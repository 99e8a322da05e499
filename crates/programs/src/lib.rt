// What the programs `replay` and `answer` write of a log, what their status means, and what the sheet's pump hands back. There is no code here.
#![tactic(auto)]
