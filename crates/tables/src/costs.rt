// Costs of words by half bytes: for each four values the costs of the sixteen half bytes, sums of those of two pairs of bits; then a sum of one
// entry for each half byte. Relies on a bit's cost (crate polar); outer/specs/Search.antt says what a table of costs holds.
ghost use Rattle.std.specs.Prelude.{◌≡◌, [], ◌∷◌, ℕ, ◌+◌, ◌*◌, ◌/◌, ◌%◌, ◌≤◌, ◌<◌, pos, length, get_or};
ghost use Rattle.laws.specs.Lists.{All};
ghost use Rattle.polar.specs.Layers.{part, Within};
ghost use Rattle.outer.specs.Search.{cost_of, picked, Runs, Costs, Small};

use crate::HalfBytes;
use polar::values::cost;

// Value i, 0 past the last.
fn value(values: &[i32], i: usize) -> i32
    ensures { result ≡ get_or values.now i (pos 0) }
{
    if i < values.len() { values[i] } else { 0 }
}

// The costs of the four pairs of bits at two values.
fn pairs(s0: i32, s1: i32) -> [u32; 4]
    requires { Within 1048064 s0 × Within 1048064 s1 }
    ensures { (v : ℕ) → v < 4 → (get_or result v 0 ≡ cost_of v (s0 ∷ s1 ∷ [])) × (get_or result v 0 ≤ 2096128) }
{
    let z0 = cost(0, s0);
    let o0 = cost(1, s0);
    let z1 = cost(0, s1);
    let o1 = cost(1, s1);
    [z0 + z1, o0 + z1, z0 + o1, o0 + o1]
}

// For all half bytes at the four values from `from` on, zeros past the last, SCALE times the cost and STEP times the half byte, from `to` on.
pub fn half_bytes<const SCALE: u32, const STEP: u32>(
    values: &[i32],
    from: usize,
    table: &mut [u32],
    to: usize,
)
    requires small { All (Within 1048064) values.now × (from + 4 ≤ 32) }
    requires room { to + 16 ≤ length table.old }
    requires scale { (SCALE ≤ 256) × (STEP ≤ 16) }
    ensures before { (k : ℕ) → k < to → get_or table.new k 0 ≡ get_or table.old k 0 }
    ensures costs { (v : ℕ) → v < 16 → get_or table.new (to + v) 0 ≡ cost_of v (part from 4 values.now) * SCALE + v * STEP }
{
    let low = pairs(value(values, from), value(values, from + 1));
    let high = pairs(value(values, from + 2), value(values, from + 3));
    for v in 0..16 {
        table[to + v] = (low[v % 4] + high[v / 4]) * SCALE + v as u32 * STEP;
    }
}

// The number of runs for n values: 2, 4 or 8.
fn run_count(n: usize) -> usize
    requires { n ≤ 32 }
    ensures { Runs result × (n ≤ 4 * result) }
{
    if n <= 8 {
        return 2;
    }
    if n <= 16 {
        return 4;
    }
    8
}

// The costs of all half bytes at the values, zeros past them; returns the number of runs.
pub fn prepare(values: &[i32], sums: &mut [u32; 128]) -> usize
    requires { (length values.now ≤ 32) × All (Within 1048064) values.now }
    ensures { Costs sums.new result values.now × Small sums.new result }
{
    let runs = run_count(values.len());
    for p in 0..runs {
        half_bytes::<1, 0>(values, p * 4, sums, p * 16);
    }
    runs
}

// The entry of run p that the lowest half byte of w picks.
fn pick(table: HalfBytes, p: usize, w: u32) -> u32
    requires { p < 8 }
    ensures { result ≡ get_or table.entry.sums.now (16 * p + w % 16) 0 }
{
    table.sums[16 * p + (w % 16) as usize]
}

// The cost of the four lowest half bytes of w, from run p on.
fn four(table: HalfBytes, p: usize, w: u32) -> u32
    requires { p + 4 ≤ table.runs }
    ensures { (result ≡ picked table.entry.sums.now p 4 w) × (result ≤ 16769024) }
{
    let w1 = w / 16;
    let w2 = w1 / 16;
    let w3 = w2 / 16;
    pick(table, p, w) + pick(table, p + 1, w1) + pick(table, p + 2, w2) + pick(table, p + 3, w3)
}

// The cost of a word.
pub fn cost_of(table: HalfBytes, word: u32) -> u32
    ensures { (result ≡ picked table.entry.sums.now 0 table.entry.runs word) × (result ≤ 33538048) }
{
    if table.runs == 2 {
        return pick(table, 0, word) + pick(table, 1, word / 16);
    }
    let low = four(table, 0, word);
    if table.runs == 4 {
        return low;
    }
    low + four(table, 4, word / 65536)
}
