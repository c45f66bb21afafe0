// What is demanded of the judge, and that its definitions have it. There is no code here.
#![tactic(auto)]
