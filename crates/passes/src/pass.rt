// The search of a block's words, by the directions that were walked: all words are listed, and one pass over their keys keeps the two least from
// the bound on. Relies on least_two.rt and, for the words and their costs, on crate tables; specs/Pass.antt says what is found.
ghost use Rattle.std.specs.Prelude.{◌≡◌, ℕ, ◌+◌, ◌-◌, ◌^◌, ◌≤◌, ◌<◌, length, get_or};
ghost use Rattle.std.specs.Option.{IfSome};
ghost use Rattle.laws.specs.Lists.{All};
ghost use Rattle.polar.specs.Layers.{Within};
ghost use Rattle.outer.specs.Search.{Entry, Spans, picked, Runs, Small, least_from, answer, setting_key};
ghost use Rattle.passes.specs.Pass.{after_first, two_least, Turned, summed_key, chosen};

use crate::Two;
use crate::least_two::{among, none, sift, sift_both};
use outer::{Candidate, Pair, Scratch};
use tables::costs::{cost_of, prepare};
use tables::messages::{double_all, spread_at};
use tables::{Directions, HalfBytes};

// The word of n ones.
fn ones(n: usize) -> u32
    requires { n ≤ 32 }
    ensures { result ≡ 2 ^ n - 1 }
{
    let all: u64 = 1 << n;
    (all - 1) as u32
}

// The sum of the costs of the first two words, where the last of at least 4 directions is the word of n ones.
fn turned(words: &[u32], table: HalfBytes, directions: &Directions, n: usize) -> Option<u32>
    requires { (n ≤ 32) × (length words.now ≡ 2 ^ directions.now.free) }
    ensures { IfSome result (λ total. (0 < directions.now.free) × (get_or directions.now.words directions.now.free 0 ≡ 2 ^ n - 1) × (total < 4294967295)
        × (total ≡ picked table.entry.sums.now 0 table.entry.runs (get_or words.now 0 0) + picked table.entry.sums.now 0 table.entry.runs (get_or words.now 1 0))) }
{
    if directions.free < 4 || directions.words[directions.free] != ones(n) {
        return None;
    }
    Some(cost_of(table, words[0]) + cost_of(table, words[1]))
}

// The two least keys of words from the bound on.
fn two_each(words: &[u32], table: HalfBytes, bound: u64) -> Two
    ensures { result ≡ two_least (summed_key table.entry.sums.now table.entry.runs words.now) bound (length words.now) }
{
    let mut two = none();
    for (w, word) in words.iter().enumerate() {
        two = sift(two, bound, cost_of(table, *word), *word, w, words.len());
    }
    two
}

// The same, where the costs of each two words from an even setting on have one sum: each second cost is what is left of it. Of many words most are passed
// over, two at a time; for few there is no branch.
fn two_turned<const MANY: bool>(words: &[u32], table: HalfBytes, total: u32, bound: u64) -> Two
    requires { (total < 4294967295) × Turned table.sums.now table.runs words.now (length words.now) total }
    ensures { result ≡ two_least (summed_key table.entry.sums.now table.entry.runs words.now) bound (length words.now) }
{
    let mut two = none();
    for k in 0..words.len() / 2 {
        let w = 2 * k;
        let word = words[w];
        let other = words[w + 1];
        let cost = cost_of(table, word);
        if MANY {
            two = sift_both(two, bound, cost, word, total - cost, other, w);
        } else {
            let one = among(two, bound, cost, word, w);
            two = among(one, bound, total - cost, other, w + 1);
        }
    }
    two
}

// The same, two words a turn where there is such a sum; more than 64 words are many.
fn pass(words: &[u32], table: HalfBytes, total: Option<u32>, bound: u64) -> Two
    requires { IfSome total (λ total. (total < 4294967295) × Turned table.sums.now table.runs words.now (length words.now) total) }
    ensures { result ≡ two_least (summed_key table.entry.sums.now table.entry.runs words.now) bound (length words.now) }
{
    match total {
        None => two_each(words, table, bound),
        Some(total) if words.len() > 64 => two_turned::<true>(words, table, total, bound),
        Some(total) => two_turned::<false>(words, table, total, bound),
    }
}

// The word with a key, as a candidate; none for the greatest number.
fn candidate(key: u64, at: usize, directions: &Directions) -> Candidate
    requires { at < 256 }
    ensures { result ≡ chosen directions.now.sets directions.now.free key at }
{
    if key == u64::MAX {
        return Candidate {
            some: false,
            setting: 0,
            parities: 0,
            cost: 0,
            number: 0,
        };
    }
    Candidate {
        some: true,
        setting: at as u32,
        parities: spread_at(&directions.sets, directions.free, at as u32),
        cost: (key / 4294967296) as u32,
        number: (key % 4294967296) as u32,
    }
}

// The word of least key from a bound on, of a block with these values and directions, and the one of least key after it. The sets are not touched.
pub fn find_two(values: &[i32], bound: u64, directions: &Directions, scratch: &mut Scratch) -> Pair
    requires { (length values.now ≤ 32) × All (Within 1048064) values.now }
    ensures found { (e : ℕ → Entry) → Spans directions.now.words directions.now.sets directions.now.free e → ((w : ℕ) → (e w).word < 4294967296)
        → (let n = 2 ^ directions.now.free in
        (result.first ≡ answer e values.now (least_from (setting_key e values.now) bound n)) × (result.second ≡ answer e values.now (after_first (setting_key e values.now) bound n))) }
    ensures sets_as_before { scratch.new.sets ≡ scratch.old.sets }
{
    let count = double_all(&mut scratch.words, directions);
    let runs = prepare(values, &mut scratch.sums);
    let words = &scratch.words[..count];
    let table = HalfBytes {
        sums: &scratch.sums,
        runs,
    };
    let two = pass(
        words,
        table,
        turned(words, table, directions, values.len()),
        bound,
    );
    Pair {
        first: candidate(two.first, two.at, directions),
        second: candidate(two.second, two.next, directions),
    }
}
