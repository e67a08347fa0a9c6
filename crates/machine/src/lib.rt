// What the decoding calls are told apart by, and what they answer. specs/Calls.antt says what that is for each input.

#![tactic(auto)]

use codebook::Outcome;
use codec::HookRecord;

// What a decoding call reads of the final word: its data, or the hook record that these hold besides.
#[derive(Clone, Copy)]
pub enum Reads {
    Data,
    Record,
}

// The manner of a decoding call: what it reads, and what it is lent beside word, data, workspace and walk: step records, and counts and record as slices; of
// each its length, if it is lent.
#[derive(Clone, Copy)]
pub struct Manner {
    pub reads: Reads,
    pub steps: Option<usize>,
    pub counts: Option<usize>,
    pub hook: Option<usize>,
}

// The lengths of what is given and lent: values, word and data; the workspace's numbers and bytes; the walk's paths, blocks and scores.
#[derive(Clone, Copy)]
pub struct Lengths {
    pub values: usize,
    pub word: usize,
    pub bits: usize,
    pub numbers: usize,
    pub bytes: usize,
    pub paths: usize,
    pub blocks: usize,
    pub scores: usize,
}

// Where word and data are handed out.
#[derive(Drop)]
pub struct Output<'a> {
    pub word: &'a mut [u8],
    pub bits: &'a mut [u8],
}

// The lent workspace.
#[derive(Drop)]
pub struct Workspace<'a> {
    pub numbers: &'a mut [i32],
    pub bytes: &'a mut [u8],
}

// The walk: path number, blocks and score of each extraction.
#[derive(Drop)]
pub struct Walk<'a> {
    pub path: &'a mut [i32],
    pub blocks: &'a mut [i32],
    pub score: &'a mut [i32],
}

// The counts of a run: extractions, paths crowded out, paths outrun, and the discrepancy of the final word. Zeros, the default, where no run was made.
#[derive(Clone, Copy, Default)]
pub struct Counts {
    pub extractions: u32,
    pub crowded: u32,
    pub outrun: u32,
    pub discrepancy: u32,
}

// What the plain decoding call answers.
#[derive(Clone, Copy)]
pub struct Decoded {
    pub outcome: Outcome,
    pub counts: Counts,
}

// What the hook call answers: the record is zeros, passed, where it is refused.
#[derive(Clone, Copy)]
pub struct HookDecoded {
    pub outcome: Outcome,
    pub counts: Counts,
    pub hook: HookRecord,
}
