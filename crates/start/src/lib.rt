// A run's first state: path 0 holds array 1, the other slots are vacant, the received values are at the root. And what each extraction begins with:
// a block read off the tables, and an entry of the walk written.

#![tactic(auto)]

ghost use Rattle.std.specs.Prelude.{◌≡◌, ℕ, suc, ◌+◌, ◌^◌, ◌≤◌, ◌<◌, pos, length, get_or, set, replicate};
ghost use Rattle.polar.specs.Layers.{over_at};
ghost use Rattle.codebook.specs.Book.{Book};
ghost use Rattle.codebook.specs.Limits.{Valid};
ghost use Rattle.machine.specs.Calls.{SameWalk};
ghost use Rattle.reader.specs.Arrays.{turn};
ghost use Rattle.sharing.specs.Sharing.{held_at, Held, Rows};
ghost use Rattle.order.specs.Entries.{key_at};
ghost use Rattle.steps.specs.Steps.{BlockIs};
ghost use Rattle.start.specs.Start.{first_held, HasEntries, BlocksIn};

use codebook::Tables;
use machine::Walk;
use numerals::power;
use order::entries::{blocks_of, number_of, score_of};
use words::Block;

// Path 0 holds array 1 at the root, and none elsewhere; the tables hold zeros before.
pub fn begin(rows: &mut [u32], holders: &mut [u16; 2580], m: usize)
    requires { Rows 1 rows.old × ((k : ℕ) → get_or rows.old k 0 ≡ 0) × (holders.old ≡ replicate 2580 0) × (m ≤ 9) }
    ensures { (rows.new ≡ set rows.old m 1) × Held holders.new
        × ((h i : ℕ) → h ≤ 9 → i ≤ 256 → held_at holders.new h i ≡ first_held m h i) }
{
    for h in 0..m {
        holders[h * 257] = 1;
    }
    holders[m * 257 + 1] = 1;
    rows[m] = 1;
}

// Slots 1 to D - 1 are vacant, the lowest to be taken last.
pub fn fill_vacant(vacant: &mut [u8; 256], paths: usize)
    requires { (1 ≤ paths) × (paths ≤ 256) }
    ensures { (k : ℕ) → k + 1 < paths → get_or vacant.new k 0 ≡ k + 1 }
{
    for i in 1..paths {
        vacant[i - 1] = i as u8;
    }
}

// The received values, written from `at` on.
pub fn receive(numbers: &mut [i32], at: usize, values: &[i16])
    requires { at + length values.now ≤ length numbers.old }
    ensures { numbers.new ≡ over_at at values.now numbers.old }
{
    for (i, value) in values.iter().enumerate() {
        numbers[at + i] = i32::from(*value);
    }
}

// The exponent of the largest power of two that divides t.
fn twos(t: usize) -> usize
    requires { (1 ≤ t) × (t ≤ 512) }
    ensures { (result ≤ 9) × ((m : ℕ) → m ≤ 9 → t ≤ 2 ^ m → result ≡ turn (suc m) t) }
{
    t.trailing_zeros() as usize
}

// Block b of the book.
pub fn block_at(tables: &Tables, b: usize) -> Block
    requires b_bound { (b < 512) × (get_or tables.now.heights b 0 ≤ 5) × (get_or tables.now.starts b 0 + 2 ^ get_or tables.now.heights b 0 ≤ 512) }
    ensures { (B : Book) → Valid B → BlocksIn B tables.now → b < length B.blocks → BlockIs B b result }
{
    let start = tables.starts[b] as usize;
    let height = tables.heights[b] as usize;
    Block {
        start,
        height,
        bias: tables.biases[b],
        place: twos(start + power(height)),
    }
}

// Writes an extraction's entry of the walk.
pub fn note(walk: &mut Walk, at: usize, e: u64)
    requires { HasEntries (at + 1) walk.old × (e < 36028797018963968) }
    ensures noted { (walk.new.path.now ≡ set walk.old.path.now at (pos (key_at e).number))
        × (walk.new.blocks.now ≡ set walk.old.blocks.now at (pos (key_at e).blocks))
        × (walk.new.score.now ≡ set walk.old.score.now at (key_at e).score) }
    ensures same_walk { SameWalk walk.new walk.old }
{
    walk.path[at] = number_of(e) as i32;
    walk.blocks[at] = blocks_of(e) as i32;
    walk.score[at] = score_of(e);
}
