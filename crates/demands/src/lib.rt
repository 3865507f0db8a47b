// The three demands, over what the public functions promise: stated in specs/Demands.antt, proved in proofs/Demands.antt.
#![tactic(auto)]
