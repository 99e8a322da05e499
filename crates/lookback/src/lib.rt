// What any detector with an alarm shows, from the events alone, said once: a detector is what it sees of a history, and what of that sets and
// clears its status. There is no code here.
#![tactic(auto)]
