// The nearest word of a block, and the next after one.

#![tactic(auto)]

pub mod find;
