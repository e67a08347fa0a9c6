// The listing that program `walk` prints of an input.

#![tactic(auto)]

pub mod decoding;
pub mod input;
pub mod lines;

pub use decoding::list;
