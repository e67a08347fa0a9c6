// Step 2: if the last block of the path in hand has a next word, the queue is cut to D - 2 paths and a copy with that word is inserted.
ghost use Rattle.std.specs.Prelude.{◌≡◌, List, ◌∷◌, ℕ, suc, ◌+◌, ◌-◌, ◌≤◌, ◌<◌};
ghost use Rattle.std.proofs.Math.Option.{some};
ghost use Rattle.reader.specs.Reader as R;
ghost use Rattle.order.specs.Entries.{queue_of, Rising};
ghost use Rattle.standing.specs.Seen.{contents, SameMemory, Lent};
ghost use Rattle.standing.specs.Standing.{Stands};
ghost use Rattle.words.specs.Kept.{Cells, Kepts};
ghost use Rattle.steps.specs.Steps.{Forking, Copying, CopiedTo};

use crate::crowding::crowd;
use crate::{Queue, Tally};
use codebook::Tables;
use heights::Layout;
use order::entries::{entry, slot_of};
use order::moves::insert;
use outer::{Candidate, Next, Scratch};
use settings::Settings;
use sharing::holders::share;
use standing::Memory;
use standing::row::{RowCells, cells_of, put};
use views::view::claim;
use words::{Block, other_word, score};

// A copy of the path of entry e, with the word found, in the slot `to`; it is inserted. The next word after that one is kept for it, where it is known.
fn fork(
    memory: &mut Memory,
    queue: &mut Queue,
    layout: Layout,
    paths: usize,
    e: u64,
    to: usize,
    last: Block,
    found: Next,
    queued: usize,
    blocks: u32,
    number: u32,
    kept: &mut [Option<Candidate>],
)
    requires lent { Lent layout.m paths layout.arrays (contents memory.old) × (to < paths) × (queued + 2 ≤ paths) × (number < 32768) × Cells paths kept.old }
    requires by_index { (b : ℕ) × (blocks ≡ suc b) × (vs : List ℕ) × Forking layout.m paths layout.arrays (contents memory.old) e to (queue_of queue.old.order queued) vs last found b }
    requires rising { Rising queue.old.order queued }
    ensures lent_2 { Lent layout.m paths layout.arrays (contents memory.new) × (queue.new.vacant ≡ queue.old.vacant) × Cells paths kept.new }
    ensures by_index_2 { (b : ℕ) (vs : List ℕ) (c : Forking layout.m paths layout.arrays (contents memory.old) e to (queue_of queue.old.order queued) vs last found b)
        → blocks ≡ suc b → (let k = R.copy_with c.hand.book paths c.hand.arrays c.hand.taken b c.hand.rest number (some c.word) in
        Stands c.hand.book paths layout.arrays (contents memory.new) (e ∷ queue_of queue.new.order (suc queued)) vs
        k.arrays (c.hand.taken ∷ k.queue)
        × (Kepts c.hand.book c.hand.arrays kept.old (queue_of queue.old.order queued) c.hand.rest
        → Kepts c.hand.book k.arrays kept.new (queue_of queue.new.order (suc queued)) k.queue)) }
    ensures rising_2 { Rising queue.new.order (suc queued) }
    ensures bytes_as_before { memory.new.bytes.now ≡ memory.old.bytes.now }
    ensures same_memory { SameMemory memory.new memory.old }
{
    let slot = slot_of(e);
    let cost = found.first.cost;
    let rows = &mut *memory.rows;
    let own = cells_of(rows, slot);
    let d = entry(score(own.spent, cost, last.bias), blocks, number, to);
    share(rows, &mut memory.holders, layout.m, slot, to);
    let cells = RowCells {
        cost,
        word: found.first.number,
        parities: found.first.parities,
        ..own
    };
    put(rows, to, cells);
    claim(memory, layout, to, last.height, last.place);
    insert(&mut queue.order, queued, d);
    kept[to] = found.known.then_some(found.second);
}

// The tally once the queue is cut to `left` paths and a copy is queued.
fn tallied(t: Tally, left: usize) -> Tally
    requires { (left ≤ t.queued) × (t.queued ≤ 256) × (t.next < 32768) × (t.crowded < 65536) }
    ensures { (result.queued ≡ suc left) × (result.next ≡ suc t.next) × (result.extractions ≡ t.extractions)
        × (result.crowded ≡ t.crowded + (t.queued - left)) × (result.outrun ≡ t.outrun) }
{
    Tally {
        queued: left + 1,
        next: t.next + 1,
        crowded: t.crowded + (t.queued - left) as u32,
        ..t
    }
}

// The copy, if the last block of the path of entry e has a next word: the number of paths queued then, the next number, and the count.
pub fn copy(
    memory: &mut Memory,
    queue: &mut Queue,
    tables: &Tables,
    layout: Layout,
    s: Settings,
    t: Tally,
    e: u64,
    blocks: u32,
    last: Block,
    kept: &mut [Option<Candidate>],
    scratch: &mut Scratch,
) -> Tally
    requires lent { Lent layout.m s.paths layout.arrays (contents memory.old) × Cells s.paths kept.old }
    requires le_paths { (2 ≤ s.paths) × (t.queued + 1 ≤ s.paths) × (t.next < 32768) × (t.crowded < 65536) }
    requires by_index { (b : ℕ) × (blocks ≡ suc b) × Copying layout.m s.paths layout.arrays (contents memory.old) e (queue_of queue.old.order t.queued)
        (queue_of queue.old.vacant (s.paths - (t.queued + 1))) tables.now.kinds tables.now.terms last kept.old b }
    requires rising { Rising queue.old.order t.queued }
    ensures lent_2 { Lent layout.m s.paths layout.arrays (contents memory.new) × Cells s.paths kept.new }
    ensures extractions_value { (result.extractions ≡ t.extractions) × (result.outrun ≡ t.outrun) × (result.queued + 1 ≤ s.paths) }
    ensures by_index_2 { (b : ℕ) (c : Copying layout.m s.paths layout.arrays (contents memory.old) e (queue_of queue.old.order t.queued)
        (queue_of queue.old.vacant (s.paths - (t.queued + 1))) tables.now.kinds tables.now.terms last kept.old b)
        → blocks ≡ suc b → (let k = R.copy c.hand.book s.paths c.hand.arrays c.hand.taken c.hand.rest t.next (suc b) in
        CopiedTo c.hand.book s.paths layout.arrays e c.hand.taken k t.crowded result.queued result.next result.crowded (contents memory.new)
        (queue_of queue.new.order result.queued) (queue_of queue.new.vacant (s.paths - (result.queued + 1))) kept.new) }
    ensures rising_2 { Rising queue.new.order result.queued }
    ensures bytes_as_before { memory.new.bytes.now ≡ memory.old.bytes.now }
    ensures same_memory { SameMemory memory.new memory.old }
{
    let paths = s.paths as usize;
    let found = other_word(memory, tables, layout.m, e, last, kept, scratch);
    if !found.first.some {
        return t;
    }
    let left = crowd(memory, queue, layout.m, paths, t.queued);
    let to = queue.vacant[paths - (left + 2)] as usize;
    fork(
        memory, queue, layout, paths, e, to, last, found, left, blocks, t.next, kept,
    );
    tallied(t, left)
}
