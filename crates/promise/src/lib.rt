// Demand 3 of the customer's letter as one theorem: the statement in specs/, its proof in proofs/. There is no code here.

#![tactic(auto)]
