// Step 4: the visit to block b is counted, and at the L-th the queued paths with b blocks or fewer are removed.
ghost use Rattle.std.specs.Prelude.{◌≡◌, ℕ, ◌+◌, ◌-◌, ◌≤◌, ◌<◌, length, get_or};
ghost use Rattle.queue.specs.Queue as Q;
ghost use Rattle.queue.specs.Queue.{ahead, behind, staying, outrun_by, visit};
ghost use Rattle.laws.specs.Removes.{Removes};
ghost use Rattle.reader.specs.Moments.{step_at};
ghost use Rattle.reader.specs.Paths.{key_of};
ghost use Rattle.order.specs.Entries.{key_at, queue_of, Rising};
ghost use Rattle.sharing.specs.Sharing.{Held, Rows};
ghost use Rattle.standing.specs.Seen.{contents, SameMemory, HoldersOnly};
ghost use Rattle.standing.specs.Standing.{Stands};
ghost use Rattle.steps.specs.Steps.{Queued};
ghost use Rattle.advance.specs.Outruns.{Outrunning};

use order::entries::{blocks_of, slot_of};
use order::moves::sift;
use settings::Settings;
use sharing::holders::release;
use standing::Memory;
use steps::{Queue, Tally};

// The queued paths with b blocks or fewer let go of their arrays and their slots; returns how many they are. Their entries stay in the order.
fn dismiss(
    memory: &mut Memory,
    queue: &mut Queue,
    m: usize,
    paths: usize,
    queued: usize,
    b: u32,
) -> usize
    requires rows { Rows paths memory.old.rows.now × Held memory.old.holders × (m ≤ 9) × (paths ≤ 256) × (queued ≤ paths) }
    requires by_index { (arrays : ℕ) × (arrays ≤ 256) × Queued m paths arrays (contents memory.old) (queue_of queue.old.order queued) (queue_of queue.old.vacant (paths - queued)) }
    ensures held { Held memory.new.holders × (result ≤ queued) }
    ensures by_index_2 { (arrays : ℕ)
        (c : Queued m paths arrays (contents memory.old) (queue_of queue.old.order queued) (queue_of queue.old.vacant (paths - queued)))
        → arrays ≤ 256 → (result ≡ length (behind (key_of c.book) b c.paths))
        × Stands c.book paths arrays (contents memory.new) (ahead key_at b (queue_of queue.new.order queued))
        (queue_of queue.new.vacant (paths - queued + result)) c.arrays (ahead (key_of c.book) b c.paths) }
    ensures same_memory { SameMemory memory.new memory.old }
    ensures unchanged { HoldersOnly memory.new memory.old × (queue.new.order ≡ queue.old.order) }
{
    let order = &queue.order;
    let vacant = &mut queue.vacant;
    let mut gone: usize = 0;
    for e in &order[..queued] {
        if blocks_of(*e) <= b {
            let slot = slot_of(*e);
            let rows = &mut *memory.rows;
            release(rows, &mut memory.holders, m, slot);
            vacant[paths - queued + gone] = slot as u8;
            gone += 1;
        }
    }
    gone
}

// The visit to block b, at a moment of the reader's run: the number of paths queued then, and the count. The numbers that the order's entries hold before it and not
// after are those that the reader's step at that moment gives as outrun.
pub fn outrun(
    memory: &mut Memory,
    queue: &mut Queue,
    visits: &mut [u32; 512],
    m: usize,
    s: Settings,
    t: Tally,
    b: usize,
) -> Tally
    requires rows { Rows s.paths memory.old.rows.now × Held memory.old.holders × (m ≤ 9) }
    requires paths_bound { (s.paths ≤ 256) × (t.queued ≤ s.paths) × (b < 512) × (get_or visits.old b 0 < 65536) × (t.outrun < 16777216) }
    requires by_index { (arrays : ℕ) × (arrays ≤ 256) × Outrunning m s.visits s.paths arrays t.extractions b (contents memory.old)
        (queue_of queue.old.order t.queued) (queue_of queue.old.vacant (s.paths - t.queued)) visits.old }
    requires rising { Rising queue.old.order t.queued }
    ensures held { Held memory.new.holders
        × (visits.new ≡ visit visits.old b) × (result.next ≡ t.next) × (result.extractions ≡ t.extractions) × (result.crowded ≡ t.crowded)
        × (result.queued ≤ s.paths)
        × (queue_of queue.new.order result.queued ≡ staying key_at s.visits b (visit visits.old b) (queue_of queue.old.order t.queued)) }
    ensures by_index_2 { (arrays : ℕ)
        (c : Outrunning m s.visits s.paths arrays t.extractions b (contents memory.old)
        (queue_of queue.old.order t.queued) (queue_of queue.old.vacant (s.paths - t.queued)) visits.old)
        → arrays ≤ 256 → (let B = c.queued.book in
        let left = staying (key_of B) s.visits b (visit visits.old b) c.queued.paths in
        (result.queued ≡ length left)
        × (result.outrun ≡ t.outrun + length (outrun_by (key_of B) s.visits b (visit visits.old b) c.queued.paths))
        × Stands B s.paths arrays (contents memory.new) (queue_of queue.new.order result.queued)
        (queue_of queue.new.vacant (s.paths - result.queued)) c.queued.arrays left
        × Removes (step_at B s.visits s.paths c.here).outrun (Q.numbers key_at (queue_of queue.old.order t.queued)) (Q.numbers key_at (queue_of queue.new.order result.queued))) }
    ensures rising_2 { Rising queue.new.order result.queued }
    ensures same_memory { SameMemory memory.new memory.old }
    ensures unchanged { HoldersOnly memory.new memory.old }
{
    let seen = visits[b] + 1;
    visits[b] = seen;
    if seen != s.visits {
        return t;
    }
    let queued = t.queued;
    let gone = dismiss(memory, queue, m, s.paths as usize, queued, b as u32);
    let left = sift(&mut queue.order, queued, b as u32);
    Tally {
        queued: left,
        outrun: t.outrun + gone as u32,
        ..t
    }
}
