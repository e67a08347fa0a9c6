// The search of blocks of 8 positions whose words are all bytes, or all bytes of one parity: a word's key is 256 times its cost and its number.

#![tactic(auto)]

pub mod bytes;
pub mod flips;

// The hard decisions as a byte, whether they have an odd number of ones, and the two least weights: what turning a bit adds to the key.
#[derive(Clone, Copy)]
pub struct Lead {
    pub base: u32,
    pub odd: u32,
    pub least: u32,
    pub next: u32,
}
