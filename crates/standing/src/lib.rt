// The memory of a run, and the reader's state that it stands for: specs/ and proofs/. Of the code here is what reads and writes a path's row; the rest that works on
// memory comes above.

#![tactic(auto)]

pub mod row;

// What a run works on: the rows of the paths' slots, the number of paths that hold each array, and the lent workspace.
#[derive(Drop)]
pub struct Memory<'a> {
    pub rows: &'a mut [u32],
    pub holders: [u16; 2580],
    pub numbers: &'a mut [i32],
    pub bytes: &'a mut [u8],
}
