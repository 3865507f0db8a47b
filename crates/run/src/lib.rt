// Demand 3, over a plan: its rules are in specs/, the theorem is proofs/Demand.antt.
#![tactic(auto)]
