// Demand 2 in one place: its claims in specs/, their proofs in proofs/.
#![tactic(auto)]
