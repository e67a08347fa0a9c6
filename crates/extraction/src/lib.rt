// One extraction of the reader, on the memory that stands for its state. specs/ says what it needs.

#![tactic(auto)]

pub mod extract;
