// The run: extractions until one takes a path that has all blocks; the walk is written as it goes, and the final word is left in the sums of the root.
ghost use Rattle.std.specs.Prelude.{◌≡◌, List, ℕ, ◌+◌, ◌-◌, ◌^◌, ◌≤◌, ◌<◌, pos, get_or, replicate};
ghost use Rattle.polar.specs.Layers.{part};
ghost use Rattle.queue.specs.Run.{most_extractions};
ghost use Rattle.queue.specs.Queue.{Step};
ghost use Rattle.machine.specs.Calls.{walked, SameWalk};
ghost use Rattle.reader.specs.Arrays.{sums_of};
ghost use Rattle.reader.specs.Reader as R;
ghost use Rattle.sharing.specs.Sharing.{Rows};
ghost use Rattle.heights.specs.Workspace.{spot, Room, Id};
ghost use Rattle.start.specs.Start.{HasEntries};
ghost use Rattle.standing.specs.Seen.{contents, Enough, Lent, SameMemory};
ghost use Rattle.words.specs.Kept.{Cells};
ghost use Rattle.steps.specs.Steps.{committed};
ghost use Rattle.settings.specs.Settings.{Ranged};
ghost use Rattle.reading.specs.Before.{Before};
ghost use Rattle.reading.specs.Ending.{Ending};
ghost use Rattle.reading.specs.Running.{arrays_of, received, Running, RanIs};
ghost use Rattle.reading.specs.Turning.{Turning};

use crate::{Ran, Stage};
use codebook::{Shape, Tables};
use extraction::extract::extract;
use heights::Layout;
use machine::{Counts, Walk};
use numerals::power;
use order::entries::{blocks_of, entry, slot_of};
use outer::{Candidate, Scratch};
use settings::Settings;
use standing::Memory;
use standing::row::{cells_of, id_of};
use start::{begin, block_at, fill_vacant, note, receive};
use steps::{Queue, Tally};
use views::view::commit;
use words::Block;

// The end: the last word of the path in hand goes into the sums of the root.
fn finish(memory: &mut Memory, layout: Layout, s: Settings, stage: Stage, last: Block) -> Ran
    requires lent { Lent layout.m s.paths layout.arrays (contents memory.old) × (stage.tally.extractions < 65536) }
    requires by_index { (es : List ℕ) × (vs : List ℕ) × Ending layout.m s.paths layout.arrays (contents memory.old) stage.entry es vs last }
    ensures ran { (es vs : List ℕ) (c : Ending layout.m s.paths layout.arrays (contents memory.old) stage.entry es vs last)
        → (result.counts ≡ record { extractions = stage.tally.extractions + 1; crowded = stage.tally.crowded; outrun = stage.tally.outrun; discrepancy = c.hand.taken.spent + c.hand.taken.cost })
        × Id layout.arrays result.id
        × (part (spot layout.m result.id layout.m) (2 ^ layout.m) memory.new.bytes.now ≡ sums_of (committed c.hand) layout.m) }
    ensures numbers_as_before { memory.new.numbers.now ≡ memory.old.numbers.now }
    ensures same_memory { SameMemory memory.new memory.old }
{
    let slot = slot_of(stage.entry);
    let rows = &mut *memory.rows;
    let own = cells_of(rows, slot);
    commit(memory, layout, slot, last.height, last.place, own.word);
    let counts = Counts {
        extractions: stage.tally.extractions + 1,
        crowded: stage.tally.crowded,
        outrun: stage.tally.outrun,
        discrepancy: own.spent + own.cost,
    };
    let rows = &mut *memory.rows;
    Ran {
        counts,
        id: id_of(rows, slot, layout.m),
    }
}

// One extraction of the run, of a path that has a next block: its entry of the walk, steps 2 to 4, and step 1 of the next. The memory before it stands for one of
// the reader's moments, and after it for the next one (specs/Before). The functions that make steps 2 and 4 (extraction::extract::second, advance::outruns::outrun) are called with that moment in their
// `requires`, and say what the queue loses.
fn turn(
    memory: &mut Memory,
    queue: &mut Queue,
    visits: &mut [u32; 512],
    kept: &mut [Option<Candidate>],
    x: Shape,
    s: Settings,
    arrays: usize,
    tables: &Tables,
    walk: &mut Walk,
    scratch: &mut Scratch,
    stage: Stage,
) -> Stage
    requires lent { Lent x.m s.paths arrays (contents memory.old) × Cells s.paths kept.old }
    requires ranged { Ranged s }
    requires blocks_in_bounds { HasEntries (most_extractions s.visits x.blocks) walk.old }
    requires turning { Turning x s arrays tables.now (contents memory.old) queue.old.order queue.old.vacant visits.old
        kept.old stage.tally stage.entry walk.old.path.now walk.old.blocks.now walk.old.score.now }
    ensures lent_2 { Lent x.m s.paths arrays (contents memory.new) × Cells s.paths kept.new }
    ensures extractions_value { result.tally.extractions ≡ stage.tally.extractions + 1 }
    ensures before { (c : Turning x s arrays tables.now (contents memory.old) queue.old.order queue.old.vacant visits.old kept.old
        stage.tally stage.entry walk.old.path.now walk.old.blocks.now walk.old.score.now)
        → Before c.input.book s.visits s.paths arrays c.arrays (stage.tally.extractions + 1)
        (contents memory.new) queue.new.order queue.new.vacant visits.new kept.new
        result.tally result.entry c.path₀ c.blocks₀ c.score₀ walk.new.path.now walk.new.blocks.now walk.new.score.now }
    ensures same { SameMemory memory.new memory.old × SameWalk walk.new walk.old }
{
    let t = stage.tally;
    let e = stage.entry;
    note(walk, t.extractions as usize, e);
    let b = blocks_of(e) as usize;
    let last = block_at(tables, b.saturating_sub(1));
    let at = block_at(tables, b);
    let layout = Layout {
        m: x.m as usize,
        arrays,
    };
    let mut after = extract(
        memory, queue, visits, tables, layout, s, t, e, last, at, kept, scratch,
    );
    after.extractions += 1;
    let left = after.queued - 1;
    after.queued = left;
    Stage {
        tally: after,
        entry: queue.order[left],
    }
}

// The run's first extractions, at most `most` of them, and none of a path that has all blocks. Rows, holders and visits hold zeros at first, order, vacant and the words kept anything; all are
// left as they are before the next extraction, and so is the workspace. For every bound that is the reader's state at that moment (specs/Before): so the queue that the run
// keeps here is the reader's at each extraction.
pub fn extractions(
    most: u32,
    memory: &mut Memory,
    queue: &mut Queue,
    visits: &mut [u32; 512],
    kept: &mut [Option<Candidate>],
    x: Shape,
    s: Settings,
    arrays: usize,
    values: &[i16],
    tables: &Tables,
    walk: &mut Walk,
) -> Stage
    requires rows { Rows s.paths memory.old.rows.now × ((k : ℕ) → get_or memory.old.rows.now k 0 ≡ 0) × Cells s.paths kept.old }
    requires holders_value { (memory.old.holders ≡ replicate 2580 0) × (visits.old ≡ replicate 512 0) }
    requires ranged { Ranged s }
    requires room { Room x.m arrays memory.old.numbers.now × Room x.m arrays memory.old.bytes.now × Enough s.paths arrays × (arrays ≤ 256) }
    requires blocks_in_bounds { HasEntries (most_extractions s.visits x.blocks) walk.old }
    requires running { Running x values.now tables.now }
    ensures lent { Lent x.m s.paths arrays (contents memory.new) }
    ensures before { (c : Running x values.now tables.now)
        → Before c.book s.visits s.paths arrays (arrays_of x.m (received x.m values.now memory.old.numbers.now) memory.old.bytes.now) most
        (contents memory.new) queue.new.order queue.new.vacant visits.new kept.new
        result.tally result.entry walk.old.path.now walk.old.blocks.now walk.old.score.now walk.new.path.now walk.new.blocks.now walk.new.score.now }
    ensures same { SameMemory memory.new memory.old × SameWalk walk.new walk.old }
{
    let m = x.m as usize;
    let mut scratch = Scratch {
        words: [0; 256],
        sets: [0; 256],
        sums: [0; 128],
    };
    let rows = &mut *memory.rows;
    begin(rows, &mut memory.holders, m);
    fill_vacant(&mut queue.vacant, s.paths as usize);
    let numbers = &mut *memory.numbers;
    receive(numbers, power(m), values);
    let mut stage = Stage {
        tally: Tally {
            queued: 0,
            next: 1,
            extractions: 0,
            crowded: 0,
            outrun: 0,
        },
        entry: entry(0, 0, 0, 0),
    };
    while stage.tally.extractions < most && blocks_of(stage.entry) != x.blocks {
        stage = turn(
            memory,
            queue,
            visits,
            kept,
            x,
            s,
            arrays,
            tables,
            walk,
            &mut scratch,
            stage,
        );
    }
    stage
}

// The run with these tables of the paths' rows, which hold zeros, and of the words kept, which hold anything.
fn run_with(
    rows: &mut [u32],
    kept: &mut [Option<Candidate>],
    x: Shape,
    s: Settings,
    arrays: usize,
    values: &[i16],
    tables: &Tables,
    numbers: &mut [i32],
    bytes: &mut [u8],
    walk: &mut Walk,
) -> Ran
    requires rows { Rows s.paths rows.old × ((k : ℕ) → get_or rows.old k 0 ≡ 0) × Cells s.paths kept.old }
    requires ranged { Ranged s }
    requires room { Room x.m arrays numbers.old × Room x.m arrays bytes.old × Enough s.paths arrays × (arrays ≤ 256) }
    requires blocks_in_bounds { HasEntries (most_extractions s.visits x.blocks) walk.old }
    requires running { Running x values.now tables.now }
    ensures ran { (c : Running x values.now tables.now)
        → (let run = R.run_of c.book s.visits s.paths (arrays_of x.m (received x.m values.now numbers.old) bytes.old) in
        RanIs x.m arrays run result bytes.new
        × (walk.new.path.now ≡ walked (λ (y : Step). pos y.path) run.steps walk.old.path.now)
        × (walk.new.blocks.now ≡ walked (λ (y : Step). pos y.blocks) run.steps walk.old.blocks.now)
        × (walk.new.score.now ≡ walked (λ (y : Step). y.score) run.steps walk.old.score.now)) }
    ensures same_walk { SameWalk walk.new walk.old }
{
    let mut memory = Memory {
        rows,
        holders: [0; 2580],
        numbers,
        bytes,
    };
    let mut queue = Queue {
        order: [0; 256],
        vacant: [0; 256],
    };
    let mut visits = [0u32; 512];
    let most = s.visits * x.blocks + 1;
    let stage = extractions(
        most,
        &mut memory,
        &mut queue,
        &mut visits,
        kept,
        x,
        s,
        arrays,
        values,
        tables,
        walk,
    );
    note(walk, stage.tally.extractions as usize, stage.entry);
    let last = block_at(tables, (x.blocks as usize).saturating_sub(1));
    let layout = Layout {
        m: x.m as usize,
        arrays,
    };
    finish(&mut memory, layout, s, stage, last)
}

// The whole run, from any contents of the workspace, which has as many arrays of each height as there may be paths. Its tables are cleared, so few paths have small ones.
pub fn run(
    x: Shape,
    s: Settings,
    values: &[i16],
    tables: &Tables,
    numbers: &mut [i32],
    bytes: &mut [u8],
    walk: &mut Walk,
) -> Ran
    requires ranged { Ranged s }
    requires room { Room x.m s.paths numbers.old × Room x.m s.paths bytes.old }
    requires blocks_in_bounds { HasEntries (most_extractions s.visits x.blocks) walk.old }
    requires running { Running x values.now tables.now }
    ensures ran { (c : Running x values.now tables.now)
        → (let run = R.run_of c.book s.visits s.paths (arrays_of x.m (received x.m values.now numbers.old) bytes.old) in
        RanIs x.m s.paths run result bytes.new
        × (walk.new.path.now ≡ walked (λ (y : Step). pos y.path) run.steps walk.old.path.now)
        × (walk.new.blocks.now ≡ walked (λ (y : Step). pos y.blocks) run.steps walk.old.blocks.now)
        × (walk.new.score.now ≡ walked (λ (y : Step). y.score) run.steps walk.old.score.now)) }
    ensures same_walk { SameWalk walk.new walk.old }
{
    let arrays = s.paths as usize;
    if arrays <= 32 {
        let mut rows = [0u32; 512];
        let mut kept: [Option<Candidate>; 32] = [None; 32];
        return run_with(
            &mut rows, &mut kept, x, s, arrays, values, tables, numbers, bytes, walk,
        );
    }
    let mut rows = [0u32; 4096];
    let mut kept: [Option<Candidate>; 256] = [None; 256];
    run_with(
        &mut rows, &mut kept, x, s, arrays, values, tables, numbers, bytes, walk,
    )
}
