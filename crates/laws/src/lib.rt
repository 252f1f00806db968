// What holds of every run. There is no code here: the laws speak of the definition that the code meets.
#![tactic(auto)]
