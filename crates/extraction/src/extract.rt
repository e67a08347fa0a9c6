// One extraction of a path that has a next block: steps 2 to 4.
ghost use Rattle.std.specs.Prelude.{◌≡◌, List, ℕ, suc, ◌+◌, ◌-◌, ◌≤◌, ◌<◌, length, get_or};
ghost use Rattle.queue.specs.Queue as Q;
ghost use Rattle.reader.specs.Reader as R;
ghost use Rattle.reader.specs.Paths.{key_of};
ghost use Rattle.laws.specs.Removes.{Removes};
ghost use Rattle.reader.specs.Moments.{step_at};
ghost use Rattle.order.specs.Entries.{key_at, queue_of, Rising};
ghost use Rattle.standing.specs.Seen.{contents, Lent, SameMemory};
ghost use Rattle.standing.specs.Standing.{Stands};
ghost use Rattle.words.specs.Kept.{Cells, Kepts};
ghost use Rattle.steps.specs.Steps.{CopiedTo};
ghost use Rattle.extraction.specs.Extraction.{moment_in, Seconding, Thirding, Extracting};

use advance::outruns::outrun;
use advance::values::calculate;
use codebook::Tables;
use heights::Layout;
use order::entries::{blocks_of, entry, number_of, slot_of};
use order::moves::insert;
use outer::{Candidate, Scratch};
use settings::Settings;
use standing::Memory;
use standing::row::{RowCells, cells_of, put};
use steps::copies::copy;
use steps::{Queue, Tally};
use words::{Block, nearest_words, score};

// Step 2 for the path of entry e, taken at a moment of the reader's run; the empty path has no copy. The numbers that the order's entries hold before it and not after are those that the reader's
// step at that moment gives as crowded out.
fn second(
    memory: &mut Memory,
    queue: &mut Queue,
    tables: &Tables,
    layout: Layout,
    s: Settings,
    t: Tally,
    e: u64,
    last: Block,
    kept: &mut [Option<Candidate>],
    scratch: &mut Scratch,
) -> Tally
    requires lent { Lent layout.m s.paths layout.arrays (contents memory.old) × Cells s.paths kept.old }
    requires le_paths { (2 ≤ s.paths) × (t.queued + 1 ≤ s.paths) × (t.next < 32768) × (t.crowded < 65536) }
    requires seconding { Seconding layout.m s.visits s.paths layout.arrays t.extractions t.next (contents memory.old) e (queue_of queue.old.order t.queued)
        (queue_of queue.old.vacant (s.paths - (t.queued + 1))) tables.now.kinds tables.now.terms last kept.old }
    requires rising { Rising queue.old.order t.queued }
    ensures lent_2 { Lent layout.m s.paths layout.arrays (contents memory.new) × Cells s.paths kept.new }
    ensures extractions_value { (result.extractions ≡ t.extractions) × (result.outrun ≡ t.outrun) × (result.queued + 1 ≤ s.paths) }
    ensures fact { (c : Seconding layout.m s.visits s.paths layout.arrays t.extractions t.next (contents memory.old) e
        (queue_of queue.old.order t.queued) (queue_of queue.old.vacant (s.paths - (t.queued + 1))) tables.now.kinds tables.now.terms last kept.old)
        → (let k = R.copy c.hand.book s.paths c.hand.arrays c.hand.taken c.hand.rest t.next c.hand.taken.blocks in
        CopiedTo c.hand.book s.paths layout.arrays e c.hand.taken k t.crowded result.queued result.next result.crowded (contents memory.new)
        (queue_of queue.new.order result.queued) (queue_of queue.new.vacant (s.paths - (result.queued + 1))) kept.new
        × Removes (step_at c.hand.book s.visits s.paths (moment_in c.hand t.next c.visits)).crowded (Q.numbers key_at (queue_of queue.old.order t.queued))
        (Q.numbers key_at (queue_of queue.new.order result.queued))) }
    ensures rising_2 { Rising queue.new.order result.queued }
    ensures bytes_as_before { memory.new.bytes.now ≡ memory.old.bytes.now }
    ensures same_memory { SameMemory memory.new memory.old }
{
    let blocks = blocks_of(e);
    let empty = blocks == 0;
    if empty {
        return t;
    }
    copy(
        memory, queue, tables, layout, s, t, e, blocks, last, kept, scratch,
    )
}

// Step 3: the path's next block, with its nearest word; it is queued again. The next word after that one is kept for it.
fn third(
    memory: &mut Memory,
    order: &mut [u64; 256],
    tables: &Tables,
    layout: Layout,
    paths: usize,
    queued: usize,
    e: u64,
    last: Block,
    at: Block,
    kept: &mut [Option<Candidate>],
    scratch: &mut Scratch,
)
    requires lent { Lent layout.m paths layout.arrays (contents memory.old) × (queued + 1 ≤ paths) × Cells paths kept.old }
    requires by_index { (vs : List ℕ) × Thirding layout.m paths layout.arrays (contents memory.old) e (queue_of order.old queued) vs tables.now.kinds tables.now.terms last at kept.old }
    requires rising { Rising order.old queued }
    ensures lent_2 { Lent layout.m paths layout.arrays (contents memory.new) × Cells paths kept.new }
    ensures by_index_2 { (vs : List ℕ) (c : Thirding layout.m paths layout.arrays (contents memory.old) e (queue_of order.old queued) vs tables.now.kinds tables.now.terms last at kept.old)
        → (let h = c.moving.hand in let k = R.move h.book h.arrays h.taken h.rest in
        Stands h.book paths layout.arrays (contents memory.new) (queue_of order.new (suc queued)) vs
        k.arrays (Q.insert (key_of h.book) k.path h.rest)
        × Kepts h.book k.arrays kept.new (queue_of order.new (suc queued)) (Q.insert (key_of h.book) k.path h.rest)) }
    ensures rising_2 { Rising order.new (suc queued) }
    ensures same_memory { SameMemory memory.new memory.old }
{
    calculate(memory, layout, paths, e, last, at);
    let slot = slot_of(e);
    let rows = &mut *memory.rows;
    let own = cells_of(rows, slot);
    let spent = own.spent + own.cost;
    let found = nearest_words(memory, tables, layout.m, slot, at, scratch);
    let near = found.first;
    let cells = RowCells {
        spent,
        cost: near.cost,
        word: near.number,
        earlier: own.parities,
        parities: near.parities,
    };
    put(&mut *memory.rows, slot, cells);
    let d = entry(
        score(spent, near.cost, at.bias),
        blocks_of(e) + 1,
        number_of(e),
        slot,
    );
    insert(order, queued, d);
    kept[slot] = Some(found.second);
}

// Steps 2 to 4 for the path of entry e, which is taken at a moment of the reader's run and no longer queued.
pub fn extract(
    memory: &mut Memory,
    queue: &mut Queue,
    visits: &mut [u32; 512],
    tables: &Tables,
    layout: Layout,
    s: Settings,
    t: Tally,
    e: u64,
    last: Block,
    at: Block,
    kept: &mut [Option<Candidate>],
    scratch: &mut Scratch,
) -> Tally
    requires lent { Lent layout.m s.paths layout.arrays (contents memory.old) × Cells s.paths kept.old }
    requires le_paths { (2 ≤ s.paths) × (t.queued + 1 ≤ s.paths) × (t.next < 32768) × (t.crowded < 65536) × (t.outrun < 16777216) }
    requires by_index { (b : ℕ) → get_or visits.old b 0 < 65536 }
    requires extracting { Extracting layout.m s.visits s.paths layout.arrays t.extractions t.next (contents memory.old) e (queue_of queue.old.order t.queued)
        (queue_of queue.old.vacant (s.paths - (t.queued + 1))) tables.now.kinds tables.now.terms last at kept.old visits.old }
    requires rising { Rising queue.old.order t.queued }
    ensures lent_2 { Lent layout.m s.paths layout.arrays (contents memory.new) × Cells s.paths kept.new }
    ensures extractions_value { (result.extractions ≡ t.extractions) × (result.queued ≤ s.paths) }
    ensures fact { (c : Extracting layout.m s.visits s.paths layout.arrays t.extractions t.next (contents memory.old) e (queue_of queue.old.order t.queued)
        (queue_of queue.old.vacant (s.paths - (t.queued + 1))) tables.now.kinds tables.now.terms last at kept.old visits.old)
        → (let k = R.extract c.hand.book s.visits s.paths c.hand.arrays c.hand.taken c.hand.rest t.next visits.old in
        (result.queued ≡ length k.state.queue) × (result.next ≡ k.state.next) × (visits.new ≡ k.state.visits)
        × (result.crowded ≡ t.crowded + length k.step.crowded) × (result.outrun ≡ t.outrun + length k.step.outrun)
        × Stands c.hand.book s.paths layout.arrays (contents memory.new) (queue_of queue.new.order result.queued)
        (queue_of queue.new.vacant (s.paths - result.queued)) k.state.arrays k.state.queue
        × Kepts c.hand.book k.state.arrays kept.new (queue_of queue.new.order result.queued) k.state.queue) }
    ensures rising_2 { Rising queue.new.order result.queued }
    ensures same_memory { SameMemory memory.new memory.old }
{
    let mut x = second(memory, queue, tables, layout, s, t, e, last, kept, scratch);
    let queued = x.queued;
    third(
        memory,
        &mut queue.order,
        tables,
        layout,
        s.paths as usize,
        queued,
        e,
        last,
        at,
        kept,
        scratch,
    );
    x.queued = queued + 1;
    outrun(memory, queue, visits, layout.m, s, x, blocks_of(e) as usize)
}
