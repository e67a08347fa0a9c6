// The moves of the queue: a path inserted, the last ones cut off, those with few blocks removed. Entries move within the array; nothing else is
// touched. Relies on entries.rt; queue/specs/Queue says what each move is, specs/Entries.antt which queue an array holds.
ghost use Rattle.std.specs.Prelude.{◌≡◌, true, ◌&&◌, suc, ◌-◌, ◌/◌, ◌≤◌, ◌<◌, length, get_or, take, ltb, leb};
ghost use Rattle.queue.specs.Queue as Q;
ghost use Rattle.order.specs.Entries.{key_at, queue_of, Rising, Moved};

use crate::entries::blocks_of;

// Whether there is an entry just below place k and e does not come before it: then it goes up to make room for e.
fn above(order: &[u64; 256], k: usize, e: u64) -> bool
    requires { k ≤ 256 }
    ensures { result ≡ (ltb 0 k && leb (e / 256) (get_or order.now (k - 1) 0 / 256)) }
{
    k > 0 && order[k - 1] >= e / 256 * 256
}

// Whether there are four entries just below place k and e comes before none of them, as the lowest of the four tells.
fn four_above(order: &[u64; 256], k: usize, e: u64) -> bool
    requires { k ≤ 256 }
    ensures { result ≡ true → (4 ≤ k) × (e / 256 ≤ get_or order.now (k - 4) 0 / 256) }
{
    k >= 4 && above(order, k - 3, e)
}

// Entries above e go up by one, four at a time, the highest first, while there are four. Returns the place below which none has moved.
fn raise(order: &mut [u64; 256], queued: usize, e: u64) -> usize
    requires order_len { (length order.old ≡ 256) × (queued < 256) }
    requires rising { Rising order.old queued }
    ensures { (result ≤ queued) × Moved order.old order.new e result queued }
{
    let mut k = queued;
    while four_above(order, k, e) {
        order[k] = order[k - 1];
        order[k - 1] = order[k - 2];
        order[k - 2] = order[k - 3];
        order[k - 3] = order[k - 4];
        k -= 4;
    }
    k
}

// Puts an entry into its place among the `queued` entries: those above it go up by one, the highest first.
pub fn insert(order: &mut [u64; 256], queued: usize, e: u64)
    requires order_len { (length order.old ≡ 256) × (queued < 256) }
    requires rising { Rising order.old queued }
    ensures order_len_2 { (length order.new ≡ 256)
        × (queue_of order.new (suc queued) ≡ Q.insert key_at e (queue_of order.old queued)) }
    ensures rising_2 { Rising order.new (suc queued) }
{
    let mut k = raise(order, queued, e);
    while above(order, k, e) {
        order[k] = order[k - 1];
        k -= 1;
    }
    order[k] = e;
}

// Leaves the first `kept` paths of the queue.
pub fn cut(order: &mut [u64; 256], queued: usize, kept: usize)
    requires { (length order.old ≡ 256) × (queued ≤ 256) × (kept ≤ queued) }
    ensures order_len { (length order.new ≡ 256)
        × (queue_of order.new kept ≡ take kept (queue_of order.old queued)) }
    ensures rising { Rising order.old queued → Rising order.new kept }
{
    let by = queued - kept;
    for i in 0..kept {
        order[i] = order[i + by];
    }
}

// Leaves the paths with more than b blocks, and returns how many they are.
pub fn sift(order: &mut [u64; 256], queued: usize, b: u32) -> usize
    requires { (length order.old ≡ 256) × (queued ≤ 256) }
    ensures order_len { (length order.new ≡ 256) × (result ≤ queued)
        × (queue_of order.new result ≡ Q.ahead key_at b (queue_of order.old queued)) }
    ensures rising { Rising order.old queued → Rising order.new result }
{
    let mut kept: usize = 0;
    for i in 0..queued {
        let e = order[i];
        if blocks_of(e) > b {
            order[kept] = e;
            kept += 1;
        }
    }
    kept
}
