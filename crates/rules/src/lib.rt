// No code of its own: what the device of 01 does over any history of events. The rules are in specs/, the theorems in proofs/.
#![tactic(auto)]
