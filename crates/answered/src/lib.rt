// What the answer prints as the range after any events. There is no code here.
#![tactic(auto)]
