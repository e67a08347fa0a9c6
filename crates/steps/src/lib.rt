// Step 2, the queue's cut and the copy of the path in hand, on the memory that stands for the reader's state. specs/ says what each step of an
// extraction needs.

#![tactic(auto)]

pub mod copies;
pub mod crowding;

// The queue: the order of its entries, the last of which is the first path's, and the slots that no path is in.
#[derive(Drop)]
pub struct Queue {
    pub order: [u64; 256],
    pub vacant: [u8; 256],
}

// The number of queued paths, the next path's number, and the counts so far.
#[derive(Clone, Copy)]
pub struct Tally {
    pub queued: usize,
    pub next: u32,
    pub extractions: u32,
    pub crowded: u32,
    pub outrun: u32,
}
