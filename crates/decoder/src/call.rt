// The decoding calls. All are one call, in different manners. Relies on the crate attempts; specs/Decodes.antt says what each promises, machine/specs/Calls what it answers and leaves.
ghost use Rattle.machine.specs.Calls.{given, lent_in, SameOutput, SameWorkspace, SameWalk, plain, hooked, unread};
ghost use Rattle.decoder.specs.Decodes.{Decodes};

use attempts::attempt::attempt;
use machine::{Decoded, HookDecoded, Manner, Output, Reads, Walk, Workspace};
use settings::Settings;

// A decoding call in manner k. Its settings may be any numbers: those out of range are refused.
pub fn decode_in(
    k: Manner,
    book: &[u8],
    s: Settings,
    values: &[i16],
    out: &mut Output,
    workspace: &mut Workspace,
    walk: &mut Walk,
) -> HookDecoded
    ensures decodes { Decodes k (given book.now s values.now) (lent_in out.old workspace.old walk.old) result (lent_in out.new workspace.new walk.new) }
    ensures same { SameOutput out.new out.old × SameWorkspace workspace.new workspace.old × SameWalk walk.new walk.old }
{
    attempt(k, book, s, values, out, workspace, walk)
}

// The plain decoding call.
#[tactic(auto, using(crate::proofs::Said::without_record))]
pub fn decode(
    book: &[u8],
    s: Settings,
    values: &[i16],
    out: &mut Output,
    workspace: &mut Workspace,
    walk: &mut Walk,
) -> Decoded
    ensures decodes { Decodes plain (given book.now s values.now) (lent_in out.old workspace.old walk.old) (unread result) (lent_in out.new workspace.new walk.new) }
    ensures same { SameOutput out.new out.old × SameWorkspace workspace.new workspace.old × SameWalk walk.new walk.old }
{
    let k = Manner {
        reads: Reads::Data,
        steps: None,
        counts: None,
        hook: None,
    };
    let x = decode_in(k, book, s, values, out, workspace, walk);
    Decoded {
        outcome: x.outcome,
        counts: x.counts,
    }
}

// The hook call: the record of the word's data besides.
pub fn decode_hook(
    book: &[u8],
    s: Settings,
    values: &[i16],
    out: &mut Output,
    workspace: &mut Workspace,
    walk: &mut Walk,
) -> HookDecoded
    ensures decodes { Decodes hooked (given book.now s values.now) (lent_in out.old workspace.old walk.old) result (lent_in out.new workspace.new walk.new) }
    ensures same { SameOutput out.new out.old × SameWorkspace workspace.new workspace.old × SameWalk walk.new walk.old }
{
    let k = Manner {
        reads: Reads::Record,
        steps: None,
        counts: None,
        hook: None,
    };
    decode_in(k, book, s, values, out, workspace, walk)
}
