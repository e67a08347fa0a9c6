// A decoding call, whatever its manner: the run on the stated workspace, the verdict on what it found, what is handed out, and the attempt that is all of it.

#![tactic(auto)]

pub mod attempt;
pub mod ran;
pub mod verdict;
