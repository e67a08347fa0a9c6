// The reader's run: one extraction after another, from any contents of the workspace.

#![tactic(auto)]

pub mod run;

use machine::Counts;
use steps::Tally;

// Where a run is before an extraction: its counts, and the entry of the path that is taken.
#[derive(Clone, Copy)]
pub struct Stage {
    pub tally: Tally,
    pub entry: u64,
}

// What a run comes to: the counts, and the id of the root array whose sums are the final word.
#[derive(Clone, Copy)]
pub struct Ran {
    pub counts: Counts,
    pub id: usize,
}
