// The order of the queue: entries, each a path's key and slot in one number, in an array whose last entry is the first path's.

#![tactic(auto)]

pub mod entries;
pub mod moves;
