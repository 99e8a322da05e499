// Which code of 0x0F means how many g, after any events. There is no code here.
#![tactic(auto)]
