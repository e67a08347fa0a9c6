// The reader: its definitions and the whole-run theorem, specs/ and proofs/; the code comes above them.

#![tactic(auto)]
