// A condition that is met at each sample for a time, as low-g and high-g ask for it: what of a history tells how long it was met, and that the
// device's spell goes by this. There is no code here.
#![tactic(auto)]
