// What the path in a slot sees of the shared arrays, written height by height: an array is taken first, then written.
ghost use Rattle.std.specs.Prelude.{◌≡◌, ℕ, suc, ◌+◌, ◌-◌, ◌^◌, ◌≤◌, ◌<◌};
ghost use Rattle.laws.specs.Lists.{All};
ghost use Rattle.polar.specs.Bits.{Bit};
ghost use Rattle.polar.specs.Layers.{part};
ghost use Rattle.reader.specs.Arrays.{sums_of, put_sums, claim, descend, by_q, by_p, joined};
ghost use Rattle.sharing.specs.Sharing.{id_at, HasRow};
ghost use Rattle.heights.specs.Workspace.{spot, Room, Id, bits_of};
ghost use Rattle.standing.specs.Seen.{contents, SameMemory, HasArrays, Viewed, StepSeen, IdsOnly};
ghost use Rattle.views.specs.Steps.{Upper, Turning, Joinable, Claimable, Joined};

use heights::Layout;
use heights::arrays::{copy_half, first_half, put_word, second_half, spot_of};
use numerals::power;
use polar::layers::add_sums;
use sharing::holders::take;
use standing::Memory;
use standing::row::id_of;

// The values of height h, by Q.
fn lower(memory: &mut Memory, layout: Layout, slot: usize, h: usize)
    requires has_arrays { HasArrays layout.m layout.arrays (contents memory.old) × HasRow slot memory.old.rows.now × (h < layout.m) }
    requires viewed { Viewed layout.m layout.arrays slot (contents memory.old) (Upper (suc h)) }
    ensures has_arrays_2 { HasArrays layout.m layout.arrays (contents memory.new)
        × IdsOnly layout.m slot memory.old.rows.now memory.new.rows.now }
    ensures step_seen { StepSeen layout.m layout.arrays slot (contents memory.old) (contents memory.new) (Upper (suc h)) (λ others v. by_q others h v) }
    ensures bytes_as_before { memory.new.bytes.now ≡ memory.old.bytes.now }
    ensures same_memory { SameMemory memory.new memory.old }
{
    let rows = &mut *memory.rows;
    let from = id_of(rows, slot, h + 1);
    let to = take(rows, &mut memory.holders, slot, h, layout.arrays);
    first_half(&mut *memory.numbers, layout, h, from, to);
}

// The values of the heights below `top`, down to `low`, by Q.
pub fn go_down(memory: &mut Memory, layout: Layout, slot: usize, top: usize, low: usize)
    requires has_arrays { HasArrays layout.m layout.arrays (contents memory.old) × HasRow slot memory.old.rows.now × (low ≤ top) × (top ≤ layout.m) }
    requires viewed { Viewed layout.m layout.arrays slot (contents memory.old) (Upper top) }
    ensures has_arrays_2 { HasArrays layout.m layout.arrays (contents memory.new)
        × IdsOnly layout.m slot memory.old.rows.now memory.new.rows.now }
    ensures step_seen { StepSeen layout.m layout.arrays slot (contents memory.old) (contents memory.new) (Upper top)
        (λ others v. descend others (top - low) top 0 v) }
    ensures bytes_as_before { memory.new.bytes.now ≡ memory.old.bytes.now }
    ensures same_memory { SameMemory memory.new memory.old }
{
    for h in (low..top).rev() {
        lower(memory, layout, slot, h);
    }
}

// The values of height h, by P with the word in the path's sums of that height.
pub fn turn_over(memory: &mut Memory, layout: Layout, slot: usize, h: usize)
    requires has_arrays { HasArrays layout.m layout.arrays (contents memory.old) × HasRow slot memory.old.rows.now × (h < layout.m) }
    requires viewed { Viewed layout.m layout.arrays slot (contents memory.old) (Turning h) }
    ensures has_arrays_2 { HasArrays layout.m layout.arrays (contents memory.new)
        × IdsOnly layout.m slot memory.old.rows.now memory.new.rows.now }
    ensures step_seen { StepSeen layout.m layout.arrays slot (contents memory.old) (contents memory.new) (Turning h)
        (λ others v. by_p others h v) }
    ensures bytes_as_before { memory.new.bytes.now ≡ memory.old.bytes.now }
    ensures same_memory { SameMemory memory.new memory.old }
{
    let rows = &mut *memory.rows;
    let from = id_of(rows, slot, h + 1);
    let word = id_of(rows, slot, h);
    let to = take(rows, &mut memory.holders, slot, h, layout.arrays);
    let bytes = &mut *memory.bytes;
    second_half(&mut *memory.numbers, bytes, layout, h, from, word, to);
}

// The word of 2^j bits at the end of height h of array `id`, joined there with the slot's sums of the heights from j on, below h.
fn join(rows: &[u32], bytes: &mut [u8], layout: Layout, slot: usize, j: usize, h: usize, id: usize)
    requires has_row { HasRow slot rows.now × (layout.m ≤ 9) × (layout.arrays ≤ 256) × (j ≤ h) × (h ≤ layout.m) × Room layout.m layout.arrays bytes.old × Id layout.arrays id }
    requires by_index { (k : ℕ) → j ≤ k → k < h → Id layout.arrays (id_at rows.now slot k) × All Bit (part (spot layout.m (id_at rows.now slot k) k) (2 ^ k) bytes.old) }
    requires all { All Bit (part (spot layout.m id h + (2 ^ h - 2 ^ j)) (2 ^ j) bytes.old) }
    ensures joined { Joined layout.m h id bytes.old bytes.new }
    ensures bytes_after { part (spot layout.m id h) (2 ^ h) bytes.new
        ≡ joined (λ k. part (spot layout.m (id_at rows.now slot k) k) (2 ^ k) bytes.old) j (h - j) (part (spot layout.m id h + (2 ^ h - 2 ^ j)) (2 ^ j) bytes.old) }
{
    let end = spot_of(layout.m, id, h) + power(h);
    for k in j..h {
        let n = power(k);
        let low = spot_of(layout.m, id_of(rows, slot, k), k);
        add_sums(bytes, low, end - n, end - (n + n), n);
    }
}

// A block's word goes into the sums of height h, joined with those of the heights below.
pub fn commit(memory: &mut Memory, layout: Layout, slot: usize, j: usize, h: usize, word: u32)
    requires has_arrays { HasArrays layout.m layout.arrays (contents memory.old) × HasRow slot memory.old.rows.now × (j ≤ h) × (h ≤ layout.m) }
    requires viewed { Viewed layout.m layout.arrays slot (contents memory.old) (Joinable j h) }
    ensures has_arrays_2 { HasArrays layout.m layout.arrays (contents memory.new)
        × IdsOnly layout.m slot memory.old.rows.now memory.new.rows.now }
    ensures step_seen { StepSeen layout.m layout.arrays slot (contents memory.old) (contents memory.new) (Joinable j h)
        (λ others v. put_sums others h (joined (sums_of v) j (h - j) (bits_of (2 ^ j) word)) v) }
    ensures numbers_as_before { memory.new.numbers.now ≡ memory.old.numbers.now }
    ensures same_memory { SameMemory memory.new memory.old }
{
    let rows = &mut *memory.rows;
    let bytes = &mut *memory.bytes;
    let to = take(rows, &mut memory.holders, slot, h, layout.arrays);
    let end = spot_of(layout.m, to, h) + power(h);
    put_word(&mut bytes[end - power(j)..end], word);
    join(rows, bytes, layout, slot, j, h, to);
}

// Takes an array of height h for the word of a block of height j; where h is j, the block's own values go along.
pub fn claim(memory: &mut Memory, layout: Layout, slot: usize, j: usize, h: usize)
    requires has_arrays { HasArrays layout.m layout.arrays (contents memory.old) × HasRow slot memory.old.rows.now × (h ≤ layout.m) }
    requires viewed { Viewed layout.m layout.arrays slot (contents memory.old) (Claimable j h) }
    ensures has_arrays_2 { HasArrays layout.m layout.arrays (contents memory.new)
        × IdsOnly layout.m slot memory.old.rows.now memory.new.rows.now }
    ensures step_seen { StepSeen layout.m layout.arrays slot (contents memory.old) (contents memory.new) (Claimable j h)
        (λ others v. claim others j h v) }
    ensures bytes_as_before { memory.new.bytes.now ≡ memory.old.bytes.now }
    ensures same_memory { SameMemory memory.new memory.old }
{
    let rows = &mut *memory.rows;
    let from = id_of(rows, slot, h);
    let to = take(rows, &mut memory.holders, slot, h, layout.arrays);
    if h == j && from != to {
        copy_half(&mut *memory.numbers, layout, h, from, to);
    }
}
