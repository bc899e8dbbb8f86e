// Laws about the definitions of `rules`, in proofs/. There is no code here.

#![tactic(auto)]
