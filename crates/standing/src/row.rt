// A path's row of 16 numbers: the ids of its arrays by height, and behind them five cells. Relies on no other file.
ghost use Rattle.std.specs.Prelude.{◌≡◌, ◌≤◌, ◌<◌};
ghost use Rattle.sharing.specs.Sharing.{id_at, HasRow};
ghost use Rattle.standing.specs.Standing.{cell, spent_at, cost_at, word_at, earlier_at, parities_at, PutRow};

// Where what the path spent before its last block stands.
const SPENT: usize = 10;

// Where the cost of that block stands.
const COST: usize = 11;

// Where the number of its word stands.
const WORD: usize = 12;

// Where the set of the parities before it stands.
const EARLIER: usize = 13;

// Where the set of the parities after it stands.
const PARITIES: usize = 14;

// What a path's row holds besides its ids.
#[derive(Clone, Copy)]
pub struct RowCells {
    pub spent: u32,
    pub cost: u32,
    pub word: u32,
    pub earlier: u32,
    pub parities: u32,
}

// The id of a slot's array of a height.
#[tactic(auto, unfolding(sharing::specs::Sharing::id_at))]
pub fn id_of(rows: &[u32], slot: usize, h: usize) -> usize
    requires { HasRow slot rows.now × (h ≤ 9) }
    ensures { result ≡ id_at rows.now slot h }
{
    rows[slot * 16 + h] as usize
}

// The cells of a slot's row.
#[tactic(auto, unfolding(crate::specs::Standing::cell))]
pub fn cells_of(rows: &[u32], slot: usize) -> RowCells
    requires { HasRow slot rows.now }
    ensures spent { result.spent ≡ cell rows.now slot spent_at }
    ensures cost { result.cost ≡ cell rows.now slot cost_at }
    ensures word { result.word ≡ cell rows.now slot word_at }
    ensures earlier { result.earlier ≡ cell rows.now slot earlier_at }
    ensures parities { result.parities ≡ cell rows.now slot parities_at }
{
    let at = slot * 16;
    RowCells {
        spent: rows[at + SPENT],
        cost: rows[at + COST],
        word: rows[at + WORD],
        earlier: rows[at + EARLIER],
        parities: rows[at + PARITIES],
    }
}

// Writes the cells of a slot's row.
pub fn put(rows: &mut [u32], slot: usize, cells: RowCells)
    requires { HasRow slot rows.old }
    ensures { PutRow slot rows.old rows.new cells.spent cells.cost cells.word cells.earlier cells.parities }
{
    let at = slot * 16;
    rows[at + SPENT] = cells.spent;
    rows[at + COST] = cells.cost;
    rows[at + WORD] = cells.word;
    rows[at + EARLIER] = cells.earlier;
    rows[at + PARITIES] = cells.parities;
}
