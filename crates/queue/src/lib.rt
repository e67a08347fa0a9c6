// The queue: its order and its steps 2 and 4 as definitions, with rows that pin them: specs/ and proofs/ alone.

#![tactic(auto)]
