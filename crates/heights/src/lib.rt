// The arrays of each height in the lent workspace: where they stand, and the steps from one height to the next.

#![tactic(auto)]

pub mod arrays;

// Where arrays stand: the workspace has so many of each height up to m.
#[derive(Clone, Copy)]
pub struct Layout {
    pub m: usize,
    pub arrays: usize,
}
