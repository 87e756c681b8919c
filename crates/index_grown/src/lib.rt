// No code: the laws of an index grown from fresh by records and rollbacks are in specs/ and proofs/.
#![tactic(auto)]
