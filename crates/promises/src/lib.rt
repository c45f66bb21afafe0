// The demands, said of the functions themselves. There is no code here.
#![tactic(auto)]
