// A clean hook reads clean: specs/Clean.antt says it, proofs/ shows it. There is no code here.

#![tactic(auto)]
