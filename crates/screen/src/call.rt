// The screen's calls: the walk goes to the number buffers and to a lent slice of step records. Relies on within.rt and the crate steprecords; specs/Screen.antt
// says what each call promises.
ghost use Rattle.machine.specs.declared.Reads.TheVariants.{Data, Record};
ghost use Rattle.machine.specs.Calls.{given, lent_in, SameOutput, SameWorkspace, SameWalk, unread};
ghost use Rattle.screen.specs.Screen.{DecodesSteps};

use crate::within::decode_within;
use machine::{Decoded, HookDecoded, Output, Reads, Walk, Workspace};
use settings::Settings;
use steprecords::{StepRecord, copy_steps};

// The call that reads r.
fn decode_shown(
    r: Reads,
    book: &[u8],
    s: Settings,
    values: &[i16],
    out: &mut Output,
    workspace: &mut Workspace,
    walk: &mut Walk,
    steps: &mut [StepRecord],
) -> HookDecoded
    ensures decodes { DecodesSteps r (given book.now s values.now) (lent_in out.old workspace.old walk.old) steps.old
        result (lent_in out.new workspace.new walk.new) steps.new }
    ensures same { SameOutput out.new out.old × SameWorkspace workspace.new workspace.old × SameWalk walk.new walk.old }
{
    let x = decode_within(r, book, s, values, out, workspace, walk, steps.len());
    let n = x.counts.extractions as usize;
    let paths = &mut *walk.path;
    let blocks = &mut *walk.blocks;
    let scores = &mut *walk.score;
    copy_steps(steps, paths, blocks, scores, n);
    x
}

// The plain decoding call.
pub fn decode_steps(
    book: &[u8],
    s: Settings,
    values: &[i16],
    out: &mut Output,
    workspace: &mut Workspace,
    walk: &mut Walk,
    steps: &mut [StepRecord],
) -> Decoded
    ensures decodes { DecodesSteps Data (given book.now s values.now) (lent_in out.old workspace.old walk.old) steps.old
        (unread result) (lent_in out.new workspace.new walk.new) steps.new }
    ensures same { SameOutput out.new out.old × SameWorkspace workspace.new workspace.old × SameWalk walk.new walk.old }
{
    let x = decode_shown(Reads::Data, book, s, values, out, workspace, walk, steps);
    Decoded {
        outcome: x.outcome,
        counts: x.counts,
    }
}

// The hook call.
pub fn decode_hook_steps(
    book: &[u8],
    s: Settings,
    values: &[i16],
    out: &mut Output,
    workspace: &mut Workspace,
    walk: &mut Walk,
    steps: &mut [StepRecord],
) -> HookDecoded
    ensures decodes { DecodesSteps Record (given book.now s values.now) (lent_in out.old workspace.old walk.old) steps.old
        result (lent_in out.new workspace.new walk.new) steps.new }
    ensures same { SameOutput out.new out.old × SameWorkspace workspace.new workspace.old × SameWalk walk.new walk.old }
{
    decode_shown(Reads::Record, book, s, values, out, workspace, walk, steps)
}
