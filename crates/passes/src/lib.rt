// The search of a block's words by one pass over all of them, which keeps the two least keys.

#![tactic(auto)]

pub mod least_two;
pub mod pass;

// The two least keys so far, with their settings; the greatest number for none.
#[derive(Clone, Copy)]
pub struct Two {
    pub first: u64,
    pub second: u64,
    pub at: usize,
    pub next: usize,
}
