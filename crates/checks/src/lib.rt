// What a decoding call tests before its run: the tests of values and lengths; of what is lent beside; all of them in their order. The settings' own check is the crate settings.

#![tactic(auto)]

pub mod admission;
pub mod beside;
pub mod tests;
