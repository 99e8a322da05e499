// No code of its own: demand 2 whole, where no rule asks a device. The statement is in specs/, the theorem in proofs/.
#![tactic(auto)]
