// One run of events, from power-up on: what happens at each, what it gives, and what the registers store after them. There is no
// code here: whatever speaks of sequences translates into these definitions.
#![tactic(auto)]
