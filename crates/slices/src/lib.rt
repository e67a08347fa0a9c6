// The decoding calls with a number as the answer, and counts and record in lent slices: what C calls, but for the names. Relies on the crates decoder and
// answers; specs/Slices.antt says what each answers and leaves.

#![tactic(auto)]

ghost use Rattle.std.specs.Prelude.{◌≡◌, length};
ghost use Rattle.machine.specs.Calls.{given, lent_in, SameOutput, SameWorkspace, SameWalk};
ghost use Rattle.answers.specs.Slices.{counts_slice, filled};
ghost use Rattle.decoder.specs.Decodes.{Decodes};
ghost use Rattle.slices.specs.Slices.{PlainSlices, HookSlices};

use answers::{put_counts, put_hook};
use codebook::outcome_number;
use decoder::decode_in;
use machine::{HookDecoded, Manner, Output, Reads, Walk, Workspace};
use settings::Settings;

// A call with its counts in a lent slice.
fn decode_counted(
    k: Manner,
    book: &[u8],
    s: Settings,
    values: &[i16],
    out: &mut Output,
    workspace: &mut Workspace,
    walk: &mut Walk,
    counts: &mut [u32],
) -> HookDecoded
    ensures decodes { Decodes k (given book.now s values.now) (lent_in out.old workspace.old walk.old) result (lent_in out.new workspace.new walk.new) }
    ensures counted { counts.new ≡ filled (counts_slice result.counts) counts.old }
    ensures same { SameOutput out.new out.old × SameWorkspace workspace.new workspace.old × SameWalk walk.new walk.old }
{
    let x = decode_in(k, book, s, values, out, workspace, walk);
    put_counts(counts, x.counts);
    x
}

// The plain decoding call.
pub fn decode_slices(
    book: &[u8],
    s: Settings,
    values: &[i16],
    out: &mut Output,
    workspace: &mut Workspace,
    walk: &mut Walk,
    counts: &mut [u32],
) -> u32
    ensures decodes { PlainSlices (given book.now s values.now) (lent_in out.old workspace.old walk.old) counts.old
        result (lent_in out.new workspace.new walk.new) counts.new }
    ensures same { SameOutput out.new out.old × SameWorkspace workspace.new workspace.old × SameWalk walk.new walk.old }
{
    let k = Manner {
        reads: Reads::Data,
        steps: None,
        counts: Some(counts.len()),
        hook: None,
    };
    let x = decode_counted(k, book, s, values, out, workspace, walk, counts);
    outcome_number(x.outcome)
}

// The hook call.
pub fn decode_hook_slices(
    book: &[u8],
    s: Settings,
    values: &[i16],
    out: &mut Output,
    workspace: &mut Workspace,
    walk: &mut Walk,
    counts: &mut [u32],
    hook: &mut [u32],
) -> u32
    ensures decodes { HookSlices (given book.now s values.now) (lent_in out.old workspace.old walk.old) counts.old
        hook.old result (lent_in out.new workspace.new walk.new) counts.new hook.new }
    ensures same { SameOutput out.new out.old × SameWorkspace workspace.new workspace.old × SameWalk walk.new walk.old }
{
    let k = Manner {
        reads: Reads::Record,
        steps: None,
        counts: Some(counts.len()),
        hook: Some(hook.len()),
    };
    let x = decode_counted(k, book, s, values, out, workspace, walk, counts);
    put_hook(hook, x.hook);
    outcome_number(x.outcome)
}
