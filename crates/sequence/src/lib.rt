// No code: demand 3, a theorem over every sequence of calls, is stated in specs/ and proved in proofs/.
#![tactic(auto)]
