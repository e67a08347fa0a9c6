// A decoding call with room for so many step records: 7 in 7's place where they are too few. Relies on the crate decoder.
ghost use Rattle.machine.specs.Calls.{given, lent_in, SameOutput, SameWorkspace, SameWalk};
ghost use Rattle.decoder.specs.Decodes.{Decodes};
ghost use Rattle.screen.specs.Screen.{showing, Fitting};

use decoder::decode_in;
use machine::{HookDecoded, Manner, Output, Reads, Walk, Workspace};
use settings::Settings;

// The call that reads r; its count of extractions is at most the room.
#[tactic(auto, using(crate::proofs::Extracted::left_fits))]
pub fn decode_within(
    r: Reads,
    book: &[u8],
    s: Settings,
    values: &[i16],
    out: &mut Output,
    workspace: &mut Workspace,
    walk: &mut Walk,
    room: usize,
) -> HookDecoded
    ensures decodes { Decodes (showing r room) (given book.now s values.now) (lent_in out.old workspace.old walk.old) result
        (lent_in out.new workspace.new walk.new) }
    ensures fitting { Fitting result.counts room (lent_in out.new workspace.new walk.new) }
    ensures same { SameOutput out.new out.old × SameWorkspace workspace.new workspace.old × SameWalk walk.new walk.old }
{
    let k = Manner {
        reads: r,
        steps: Some(room),
        counts: None,
        hook: None,
    };
    decode_in(k, book, s, values, out, workspace, walk)
}
