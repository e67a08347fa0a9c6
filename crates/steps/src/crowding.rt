// Step 2, first part: the queue is cut to D - 2 paths.
ghost use Rattle.std.specs.Prelude.{◌≡◌, ◌∷◌, ℕ, ◌+◌, ◌-◌, ◌≤◌, length};
ghost use Rattle.queue.specs.Queue.{room_for};
ghost use Rattle.order.specs.Entries.{queue_of, Rising};
ghost use Rattle.sharing.specs.Sharing.{Held, Rows};
ghost use Rattle.standing.specs.Seen.{contents, SameMemory, HoldersOnly};
ghost use Rattle.standing.specs.Standing.{Stands, InHand};

use crate::Queue;
use order::entries::slot_of;
use order::moves::cut;
use sharing::holders::release;
use standing::Memory;

// Leaves at most D - 2 of the queued paths, and returns how many; a path removed lets go of its arrays and its slot. A path is in hand beside them.
pub fn crowd(memory: &mut Memory, queue: &mut Queue, m: usize, paths: usize, queued: usize) -> usize
    requires rows { Rows paths memory.old.rows.now × Held memory.old.holders × (m ≤ 9) }
    requires le_paths { (2 ≤ paths) × (paths ≤ 256) × (queued + 1 ≤ paths) }
    requires by_index { (arrays : ℕ) × (arrays ≤ 256) × (e : ℕ) × InHand m paths arrays (contents memory.old) e (queue_of queue.old.order queued) (queue_of queue.old.vacant (paths - (queued + 1))) }
    requires rising { Rising queue.old.order queued }
    ensures held { Held memory.new.holders × (result ≤ queued) × (result + 2 ≤ paths)
        × (queue_of queue.new.order result ≡ room_for paths (queue_of queue.old.order queued)) }
    ensures by_index_2 { (arrays e : ℕ)
        (c : InHand m paths arrays (contents memory.old) e (queue_of queue.old.order queued) (queue_of queue.old.vacant (paths - (queued + 1))))
        → arrays ≤ 256 → (result ≡ length (room_for paths c.rest))
        × Stands c.book paths arrays (contents memory.new) (e ∷ queue_of queue.new.order result) (queue_of queue.new.vacant (paths - (result + 1)))
        c.arrays (c.taken ∷ room_for paths c.rest) }
    ensures rising_2 { Rising queue.new.order result }
    ensures others_as_before { HoldersOnly memory.new memory.old }
    ensures same_memory { SameMemory memory.new memory.old }
{
    if queued + 2 <= paths {
        return queued;
    }
    let rows = &mut *memory.rows;
    let slot = slot_of(queue.order[0]);
    release(rows, &mut memory.holders, m, slot);
    queue.vacant[paths - (queued + 1)] = slot as u8;
    cut(&mut queue.order, queued, queued - 1);
    queued - 1
}
