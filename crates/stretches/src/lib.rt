// What the histories say of the account: its counts, the range and its doubt, and the stretches. There is no code here.
#![tactic(auto)]
