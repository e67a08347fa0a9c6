// The plain decoding call with one record of its walk, in plain parameters: no slice of structs. Relies on the crates steprecords and decoder;
// specs/Screen.antt says what it answers and leaves.
ghost use Rattle.machine.specs.Calls.{given, lent_in, SameOutput, SameWorkspace, SameWalk};
ghost use Rattle.screen.specs.Screen.{DecodesStep};

use codebook::Outcome;
use decoder::decode;
use machine::{Counts, Output, Walk, Workspace};
use settings::Settings;
use steprecords::{StepRecord, record_at};

// What the plain decoding call answers (machine's Decoded), and one record.
#[derive(Clone, Copy)]
pub struct StepDecoded {
    pub outcome: Outcome,
    pub counts: Counts,
    pub step: StepRecord,
}

// The plain decoding call, and the record of extraction i, counted from 0: zeros where the call made no such extraction.
pub fn decode_step(
    book: &[u8],
    s: Settings,
    values: &[i16],
    out: &mut Output,
    workspace: &mut Workspace,
    walk: &mut Walk,
    i: usize,
) -> StepDecoded
    ensures decodes { DecodesStep (given book.now s values.now) (lent_in out.old workspace.old walk.old) i result (lent_in out.new workspace.new walk.new) }
    ensures same { SameOutput out.new out.old × SameWorkspace workspace.new workspace.old × SameWalk walk.new walk.old }
{
    let r = decode(book, s, values, out, workspace, walk);
    let n = r.counts.extractions as usize;
    let paths = &mut *walk.path;
    let blocks = &mut *walk.blocks;
    let scores = &mut *walk.score;
    let step = record_at(paths, blocks, scores, n, i);
    StepDecoded {
        outcome: r.outcome,
        counts: r.counts,
        step,
    }
}
