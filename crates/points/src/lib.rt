// The points of a slope detector, from the events alone and in the words of 01, by the addresses of its axes and of its threshold. There is no
// code here.
#![tactic(auto)]
