// A call's run, on exactly the part of the workspace that document 01 states, which is zero afterwards. Relies on the crates reading, heights
// and checks.
ghost use Rattle.std.specs.Prelude.{◌≡◌, ◌^◌, ◌≤◌, pos, length, replicate};
ghost use Rattle.settings.specs.Settings.{Ranged};
ghost use Rattle.queue.specs.Run.{most_extractions};
ghost use Rattle.queue.specs.Queue.{Step};
ghost use Rattle.machine.specs.Calls.{final_in, counts_of, walked, SameWalk};
ghost use Rattle.heights.specs.Workspace.{Room};
ghost use Rattle.reader.specs.Reader as R;
ghost use Rattle.reading.specs.Running.{arrays_of, received, Running};

use codebook::{Shape, Tables};
use heights::arrays::spot_of;
use machine::{Counts, Walk};
use reading::run::run;
use settings::Settings;

// The run from any contents of the workspace: the counts, the walk, and the final word in `found`, all the reader's on that workspace.
pub fn run_cleared(
    x: Shape,
    s: Settings,
    values: &[i16],
    tables: &Tables,
    numbers: &mut [i32],
    bytes: &mut [u8],
    walk: &mut Walk,
    found: &mut [u8],
) -> Counts
    requires ranged { Ranged s × (length found.old ≡ 2 ^ x.m) }
    requires room { Room x.m s.paths numbers.old × Room x.m s.paths bytes.old }
    requires blocks_in_bounds { (most_extractions s.visits x.blocks ≤ length walk.old.path.now) × (most_extractions s.visits x.blocks ≤ length walk.old.blocks.now)
        × (most_extractions s.visits x.blocks ≤ length walk.old.score.now) }
    requires running { Running x values.now tables.now }
    ensures numbers_after { (numbers.new ≡ replicate (length numbers.old) (pos 0)) × (bytes.new ≡ replicate (length bytes.old) 0) }
    ensures fact { (c : Running x values.now tables.now)
        → (let y = R.run_of c.book s.visits s.paths (arrays_of x.m (received x.m values.now numbers.old) bytes.old) in
        (result ≡ counts_of y.steps (final_in y.end)) × (found.new ≡ (final_in y.end).word)
        × (walk.new.path.now ≡ walked (λ (z : Step). pos z.path) y.steps walk.old.path.now)
        × (walk.new.blocks.now ≡ walked (λ (z : Step). pos z.blocks) y.steps walk.old.blocks.now)
        × (walk.new.score.now ≡ walked (λ (z : Step). z.score) y.steps walk.old.score.now)) }
    ensures same_walk { SameWalk walk.new walk.old }
{
    let m = x.m as usize;
    let r = run(x, s, values, tables, numbers, bytes, walk);
    let at = spot_of(m, r.id, m);
    let end = at + found.len();
    found.copy_from_slice(&bytes[at..end]);
    numbers.fill(0);
    bytes.fill(0);
    r.counts
}
