// Shared arrays: which path holds which, and which array a path writes to. Ids run from 1; 0 is none.

#![tactic(auto)]

pub mod holders;
