// What the answers for C are made of: the numbers of answers that are no plain outcome, and counts and record put into lent slices.
// specs/Numbers.antt and codec/specs/Numbers say what each number is, specs/Slices.antt which entry of a slice is what.

#![tactic(auto)]

pub mod numbers;
pub mod put;

pub use numbers::{length_mismatch, tested_number};
pub use put::{put_counts, put_hook};
