// The rules of document 01 as definitions, in specs/, in 01's order. There is no code here.

#![tactic(auto)]
