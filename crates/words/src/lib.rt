// The words of a path's block, found from what its row and the workspace hold; and its score.

#![tactic(auto)]

ghost use Rattle.std.specs.Prelude.{◌≡◌, ℕ, suc, ◌+◌, ◌^◌, ◌≤◌, ◌<◌, pos, neg_ℤ, ◌-ℤ◌, length};
ghost use Rattle.std.proofs.Math.Option.{some};
ghost use Rattle.polar.specs.Layers.{part, Within};
ghost use Rattle.codebook.specs.Book.{Book};
ghost use Rattle.codec.specs.Ties.{Parities};
ghost use Rattle.outer.specs.Search.{Searchable};
ghost use Rattle.outer.specs.Blocks.{parity_set, Bits, BlockTabled, candidate_of, Nexts};
ghost use Rattle.outer.specs.Words as W;
ghost use Rattle.outer.specs.Words.{Word};
ghost use Rattle.reader.specs.Paths.{Path, own_word};
ghost use Rattle.order.specs.Entries.{slot_at};
ghost use Rattle.sharing.specs.Sharing.{id_at, HasRow};
ghost use Rattle.heights.specs.Workspace.{spot, Id};
ghost use Rattle.standing.specs.Standing.{cell, cost_at, parities_at, Row};
ghost use Rattle.words.specs.Kept.{Keeps};

use codebook::Tables;
use heights::arrays::spot_of;
use numerals::power;
use order::entries::slot_of;
use outer::{Candidate, Next, Pair, Scratch};
use search::find::{nearest_pair, next_after};
use standing::Memory;
use standing::row::{cells_of, id_of};

// A block: its first index, its height, its bias, and the height where its word goes.
#[derive(Clone, Copy)]
pub struct Block {
    pub start: usize,
    pub height: usize,
    pub bias: i32,
    pub place: usize,
}

// R less the bias of the last block.
pub fn score(spent: u32, cost: u32, bias: i32) -> i32
    requires { (spent + cost ≤ 1048064) × Within 1048576 bias }
    ensures { (result ≡ neg_ℤ (pos (spent + cost)) -ℤ bias) × Within 2096640 result }
{
    -((spent + cost) as i32) - bias
}

// The values that the path in a slot sees of height j.
fn values_of<'a>(memory: &'a Memory, m: usize, slot: usize, j: usize) -> &'a [i32]
    requires has_row { HasRow slot memory.now.rows.now × (m ≤ 9) × (j ≤ m) × Id 256 (id_at memory.now.rows.now slot j) }
    requires within { spot m (id_at memory.now.rows.now slot j) j + 2 ^ j ≤ length memory.now.numbers.now }
    ensures { result.now ≡ part (spot m (id_at memory.now.rows.now slot j) j) (2 ^ j) memory.now.numbers.now }
{
    let from = spot_of(m, id_of(memory.rows, slot, j), j);
    &memory.numbers[from..from + power(j)]
}

// The nearest word of the block `at`, after the parities of the path in a slot, and the next after it.
pub fn nearest_words(
    memory: &Memory,
    tables: &Tables,
    m: usize,
    slot: usize,
    at: Block,
    scratch: &mut Scratch,
) -> Pair
    requires has_row { HasRow slot memory.now.rows.now × (m ≤ 9) × (at.height ≤ m) × Id 256 (id_at memory.now.rows.now slot at.height) }
    requires searchable { Searchable memory.now.numbers.now (spot m (id_at memory.now.rows.now slot at.height) at.height) tables.now.kinds at.start at.height }
    ensures fact { (B : Book) (b : ℕ) (x : Parities) → BlockTabled B b tables.now.kinds tables.now.terms at.start at.height
        → Bits x → cell memory.now.rows.now slot parities_at ≡ parity_set B x
        → (let vs = part (spot m (id_at memory.now.rows.now slot at.height) at.height) (2 ^ at.height) memory.now.numbers.now in
        (result.first ≡ candidate_of B (W.nearest B vs x b))
        × ((w : Word) → W.nearest B vs x b ≡ some w → result.second ≡ candidate_of B (W.next_after w B vs x b))) }
    ensures sets_as_before { scratch.new.sets ≡ scratch.old.sets }
{
    let values = values_of(memory, m, slot, at.height);
    let parities = cells_of(memory.rows, slot).parities;
    nearest_pair(
        values,
        tables,
        at.start,
        at.height as u32,
        parities,
        scratch,
    )
}

// The next word of the last block of the path in a slot and, where that is known too, the next after it.
fn next_word(
    memory: &Memory,
    tables: &Tables,
    m: usize,
    slot: usize,
    last: Block,
    scratch: &mut Scratch,
) -> Next
    requires has_row { HasRow slot memory.now.rows.now × (m ≤ 9) × (last.height ≤ m) × Id 256 (id_at memory.now.rows.now slot last.height) }
    requires searchable { Searchable memory.now.numbers.now (spot m (id_at memory.now.rows.now slot last.height) last.height) tables.now.kinds last.start last.height }
    requires cost { cell memory.now.rows.now slot cost_at < 4294967295 }
    ensures fact { (B : Book) (b : ℕ) (p : Path) → BlockTabled B b tables.now.kinds tables.now.terms last.start last.height
        → Bits p.earlier → Row B memory.now.rows.now slot p → p.blocks ≡ suc b
        → (let vs = part (spot m (id_at memory.now.rows.now slot last.height) last.height) (2 ^ last.height) memory.now.numbers.now in
        Nexts B vs p.earlier b (W.next_after (own_word B p b) B vs p.earlier b) result) }
{
    let values = values_of(memory, m, slot, last.height);
    let own = cells_of(memory.rows, slot);
    next_after(
        values,
        tables,
        last.start,
        last.height as u32,
        own.earlier,
        own.cost,
        own.word,
        scratch,
    )
}

// The next word of the last block of the path of entry e and, where that is known too, the next after it: the word kept for its slot alone, if one is, else
// by a search.
pub fn other_word(
    memory: &Memory,
    tables: &Tables,
    m: usize,
    e: u64,
    last: Block,
    kept: &[Option<Candidate>],
    scratch: &mut Scratch,
) -> Next
    requires has_row { HasRow (slot_at e) memory.now.rows.now × (m ≤ 9) × (last.height ≤ m) × Id 256 (id_at memory.now.rows.now (slot_at e) last.height) × (slot_at e < length kept.now) }
    requires searchable { Searchable memory.now.numbers.now (spot m (id_at memory.now.rows.now (slot_at e) last.height) last.height) tables.now.kinds last.start last.height }
    requires cost { cell memory.now.rows.now (slot_at e) cost_at < 4294967295 }
    ensures nexts { (B : Book) (b : ℕ) (p : Path) → BlockTabled B b tables.now.kinds tables.now.terms last.start last.height
        → Bits p.earlier → Row B memory.now.rows.now (slot_at e) p → p.blocks ≡ suc b
        → (let vs = part (spot m (id_at memory.now.rows.now (slot_at e) last.height) last.height) (2 ^ last.height) memory.now.numbers.now in
        let next = W.next_after (own_word B p b) B vs p.earlier b in
        Keeps kept.now (slot_at e) (candidate_of B next) → Nexts B vs p.earlier b next result) }
{
    let slot = slot_of(e);
    match kept[slot] {
        Some(first) => Next {
            first,
            second: first,
            known: false,
        },
        None => next_word(memory, tables, m, slot, last, scratch),
    }
}
