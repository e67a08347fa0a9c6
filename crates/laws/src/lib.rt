// Definitions and laws alone: specs/ and proofs/.

#![tactic(auto)]
