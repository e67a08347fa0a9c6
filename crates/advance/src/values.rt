// Step 3, first part: the path's last word goes into the sums, the values of its next block are computed, and an array for that block's word is
// taken.
ghost use Rattle.std.specs.Prelude.{List, ◌∷◌, ℕ};
ghost use Rattle.reader.specs.Paths.{ids_of};
ghost use Rattle.reader.specs.Reader.{next_view};
ghost use Rattle.order.specs.Entries.{slot_at};
ghost use Rattle.standing.specs.Seen.{contents, SameMemory, Lent, IdsOnly};
ghost use Rattle.standing.specs.Standing.{Stands, with_ids};
ghost use Rattle.steps.specs.Steps.{Moving};

use heights::Layout;
use order::entries::slot_of;
use standing::Memory;
use standing::row::cells_of;
use views::view::{claim, commit, go_down, turn_over};
use words::Block;

// What the path of entry e sees of its next block, `at`, after its last one.
pub fn calculate(memory: &mut Memory, layout: Layout, paths: usize, e: u64, last: Block, at: Block)
    requires lent { Lent layout.m paths layout.arrays (contents memory.old) }
    requires by_index { (es : List ℕ) × (vs : List ℕ) × Moving layout.m paths layout.arrays (contents memory.old) e es vs last at }
    ensures lent_2 { Lent layout.m paths layout.arrays (contents memory.new)
        × IdsOnly layout.m (slot_at e) memory.old.rows.now memory.new.rows.now }
    ensures by_index_2 { (es vs : List ℕ) (c : Moving layout.m paths layout.arrays (contents memory.old) e es vs last at)
        → (let v = next_view c.hand.book (ids_of c.hand.rest) c.hand.arrays c.hand.taken c.hand.taken.blocks in
        Stands c.hand.book paths layout.arrays (contents memory.new) (e ∷ es) vs
        v.arrays (with_ids c.hand.taken v.ids ∷ c.hand.rest)) }
    ensures same_memory { SameMemory memory.new memory.old }
{
    let slot = slot_of(e);
    let j = at.height;
    let h = last.place;
    if at.start == 0 {
        go_down(memory, layout, slot, layout.m, j);
    } else {
        let low = last.height;
        let rows = &mut *memory.rows;
        let word = cells_of(rows, slot).word;
        commit(memory, layout, slot, low, h, word);
        turn_over(memory, layout, slot, h);
        go_down(memory, layout, slot, h, j);
    }
    claim(memory, layout, slot, j, at.place);
}
