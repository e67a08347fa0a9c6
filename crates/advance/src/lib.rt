// The path in hand goes on to its next block: the values that it sees there, and the visit, on the memory that stands for the reader's state.

#![tactic(auto)]

pub mod outruns;
pub mod values;
