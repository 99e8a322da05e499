// No code of its own: runs of calls of the entry for C, and what their caller sees, from the events that they ask for. The statements are in
// specs/, the theorems in proofs/.
#![tactic(auto)]
