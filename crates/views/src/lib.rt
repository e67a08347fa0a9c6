// What the path in a slot sees of the shared arrays, and how it writes: an array is taken first, then written.

#![tactic(auto)]

pub mod view;
