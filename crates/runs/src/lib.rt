// Laws of the plain machine's run, and demand 2 of the decoding calls (specs/Handed.antt): specs/ and proofs/ alone.

#![tactic(auto)]
