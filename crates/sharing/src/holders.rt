// Arrays held, taken, shared and let go. `rows` has 16 numbers for each slot, the ids of its path's arrays by height first; `holders` has 257 for
// each height, the number of paths that hold each id, and behind them one for each height, below which no id is free.
ghost use Rattle.std.specs.Prelude.{◌≡◌, ◌&&◌, ℕ, ◌+◌, ◌*◌, ◌^◌, ◌≤◌, ◌<◌, ltb, leb, length, get_or, set};
ghost use Rattle.laws.specs.Sets.{set_of};
ghost use Rattle.reader.specs.Arrays.{own_of};
ghost use Rattle.sharing.specs.Sharing.{id_at, held_at, vacant_bit, Held, HasRow, Shared, OneLess, MoreBy, LessBy, Exchanged, Copied};

// 2^k where a count is 0, else 0.
fn mark(count: u16, k: usize) -> u32
    requires { k < 16 }
    ensures { result ≡ vacant_bit count * 2 ^ k }
{
    if count == 0 { 1 << k } else { 0 }
}

// The set of those of the 16 counts from `at` on that are 0. There is no early exit, so that the compiler compares several at once.
fn vacancies(holders: &[u16; 2580], at: usize) -> u32
    requires { at + 16 ≤ 2580 }
    ensures { result ≡ set_of 16 (λ k. vacant_bit (get_or holders.now (at + k) 0)) }
{
    let mut set: u32 = 0;
    for (k, count) in holders[at..at + 16].iter().enumerate() {
        set += mark(*count, k);
    }
    set
}

// Where the search for a free id begins: no id from 1 on and below it is free.
fn lowest(holders: &[u16; 2580], height: usize, arrays: usize) -> usize
    requires { Held holders.now × (height ≤ 9) × (arrays ≤ 256) }
    ensures { (1 ≤ result) × (result ≤ arrays + 1) × ((k : ℕ) → 1 ≤ k → k < result → 1 ≤ held_at holders.now height k) }
{
    (holders[2570 + height] as usize).clamp(1, arrays + 1)
}

// Looks for a free id in groups of 16, from `low` on: the first that is free, or the first of the fewer than 16 left. No id below it is free.
fn skip(holders: &[u16; 2580], height: usize, arrays: usize, low: usize) -> usize
    requires height_bound { (height ≤ 9) × (arrays ≤ 256) }
    requires le_low { (1 ≤ low) × (low ≤ arrays + 1) × ((k : ℕ) → 1 ≤ k → k < low → 1 ≤ held_at holders.now height k) }
    ensures { (1 ≤ result) × (result ≤ arrays + 1) × ((k : ℕ) → 1 ≤ k → k < result → 1 ≤ held_at holders.now height k) }
{
    let mut id = low;
    while id + 15 <= arrays {
        let set = vacancies(holders, height * 257 + id);
        if set != 0 {
            return id + u32::trailing_zeros(set) as usize;
        }
        id += 16;
    }
    id
}

// The first free id from `low` on, below which none is free; `arrays` + 1 if none up to `arrays` is.
fn find_from(holders: &[u16; 2580], height: usize, arrays: usize, low: usize) -> usize
    requires height_bound { (height ≤ 9) × (arrays ≤ 256) }
    requires le_low { (1 ≤ low) × (low ≤ arrays + 1) × ((k : ℕ) → 1 ≤ k → k < low → 1 ≤ held_at holders.now height k) }
    ensures { (1 ≤ result) × (result ≤ arrays + 1)
        × ((k : ℕ) → 1 ≤ k → k < result → 1 ≤ held_at holders.now height k)
        × (result ≤ arrays → held_at holders.now height result ≡ 0) }
{
    for id in skip(holders, height, arrays, low)..arrays + 1 {
        if holders[height * 257 + id] == 0 {
            return id;
        }
    }
    arrays + 1
}

// The first id from 1 on that no path holds at a height; `arrays` + 1 if none up to `arrays` is free.
fn first_free(holders: &[u16; 2580], height: usize, arrays: usize) -> usize
    requires { Held holders.now × (height ≤ 9) × (arrays ≤ 256) }
    ensures { (1 ≤ result) × (result ≤ arrays + 1)
        × ((k : ℕ) → 1 ≤ k → k < result → 1 ≤ held_at holders.now height k)
        × (result ≤ arrays → held_at holders.now height result ≡ 0) }
{
    let low = lowest(holders, height, arrays);
    // mostly this one is free
    if holders[height * 257 + low] == 0 {
        return low;
    }
    find_from(holders, height, arrays, low)
}

// Whether a path that holds an id may write to it: it is some array, and no other path holds it.
fn alone(id: usize, held: u16) -> bool
    ensures { result ≡ (ltb 0 id && leb held 1) }
{
    id > 0 && held <= 1
}

// The path in a slot takes an array of a height: its own, if it has one that no other path holds, else the first free one. Returns its id.
pub fn take(
    rows: &mut [u32],
    holders: &mut [u16; 2580],
    slot: usize,
    height: usize,
    arrays: usize,
) -> usize
    requires held { Held holders.old × HasRow slot rows.old × (height ≤ 9) × (arrays ≤ 256) }
    requires shared { Shared holders.old height arrays (id_at rows.old slot height) }
    ensures held_2 { Held holders.new × (1 ≤ result) × (result ≤ arrays) }
    ensures rows_after { rows.new ≡ set rows.old (slot * 16 + height) result }
    ensures exchanged { Exchanged height (id_at rows.old slot height) result holders.old holders.new }
    ensures value { (x : Shared holders.old height arrays (id_at rows.old slot height))
        → result ≡ own_of (id_at rows.old slot height) x.others }
{
    let at = slot * 16 + height;
    let id = rows[at] as usize;
    let held = holders[height * 257 + id];
    if alone(id, held) {
        return id;
    }
    let free = first_free(holders, height, arrays);
    holders[height * 257 + id] = held - 1;
    holders[height * 257 + free] = 1;
    holders[2570 + height] = (free + 1) as u16;
    rows[at] = free as u32;
    free
}

// The path in slot `to` holds what the one in slot `from` holds, at the heights up to m.
pub fn share(rows: &mut [u32], holders: &mut [u16; 2580], m: usize, from: usize, to: usize)
    requires held { Held holders.old × (m ≤ 9) × HasRow from rows.old × HasRow to rows.old }
    requires by_index { (h : ℕ) → h ≤ m → (let id = id_at rows.old from h in (id ≤ 256) × (held_at holders.old h id < 65535)) }
    requires fact { from ≡ to → ⊥ }
    ensures held_2 { Held holders.new × (length rows.new ≡ length rows.old) }
    ensures copied { Copied m from to rows.old rows.new }
    ensures more_by { MoreBy (m + 1) rows.old from holders.old holders.new }
{
    for h in 0..m + 1 {
        let id = rows[from * 16 + h];
        holders[h * 257 + id as usize] += 1;
        rows[to * 16 + h] = id;
    }
}

// A path lets go of an id of a height.
fn drop_one(holders: &mut [u16; 2580], height: usize, id: usize)
    requires { Held holders.old × (height ≤ 9) × (id ≤ 256) × (1 ≤ held_at holders.old height id) }
    ensures { Held holders.new × OneLess height id holders.old holders.new }
{
    holders[2570 + height] = holders[2570 + height].min(id as u16);
    holders[height * 257 + id] -= 1;
}

// The path in a slot lets go of what it holds at the heights up to m.
pub fn release(rows: &[u32], holders: &mut [u16; 2580], m: usize, slot: usize)
    requires held { Held holders.old × (m ≤ 9) × HasRow slot rows.now }
    requires by_index { (h : ℕ) → h ≤ m → (let id = id_at rows.now slot h in (id ≤ 256) × (1 ≤ held_at holders.old h id)) }
    ensures held_2 { Held holders.new }
    ensures less_by { LessBy (m + 1) rows.now slot holders.old holders.new }
{
    for h in 0..m + 1 {
        drop_one(holders, h, rows[slot * 16 + h] as usize);
    }
}
