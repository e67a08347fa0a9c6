// Demands 2 and 3 in full: specs/Demands.antt states them, proofs/Demands.antt proves them by citing. There is no code here.

#![tactic(auto)]
