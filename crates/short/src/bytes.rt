// The word of least key from a bound on, of a block of 8 positions where all indices are free: every byte is a word, and its key, 256 times the cost and the
// number, the sum of the keys of two half bytes. Relies on no other file here; specs/Short.antt says what a key is.
ghost use Rattle.std.specs.Prelude.{◌≡◌, ℕ, ◌+◌, ◌*◌, ◌%◌, ◌≤◌, ◌<◌, leb, length, get_or};
ghost use Rattle.laws.specs.Lists.{All};
ghost use Rattle.polar.specs.Layers.{Within};
ghost use Rattle.outer.specs.Search.{Entry, spread, key_of, setting_key, least_from, answer};
ghost use Rattle.short.specs.Short.{kept, least_key, byte_key, Halves, back_rows, Octets, word_with};

use outer::Candidate;
use tables::Directions;
use tables::costs::half_bytes;
use tables::messages::spread_at;

// The keys of all half bytes at the values, zeros past them: 256 times the cost, and what the half byte counts in the number.
fn fill_halves(values: &[i32], halves: &mut [u32; 256])
    requires { (length values.now ≤ 8) × All (Within 1048064) values.now }
    ensures { Halves halves.new values.now }
{
    half_bytes::<256, 1>(values, 0, halves, 0);
    half_bytes::<256, 16>(values, 4, halves, 16);
}

// The key, where it is not below the bound.
fn from(key: u32, bound: u32) -> u32
    ensures { result ≡ kept bound key }
{
    if key < bound { u32::MAX } else { key }
}

// The least of the keys that are not below a bound.
fn least_key(keys: &[u32], bound: u32) -> u32
    ensures { result ≡ least_key (λ w. get_or keys.now w 0) bound (length keys.now) }
{
    let mut best = u32::MAX;
    for key in keys {
        best = from(*key, bound).min(best);
    }
    best
}

// The same of the keys of the bytes with one high half, whose key is `add`, where `least` is the least key of a low half: that one's, unless
// some are below the bound.
fn least_row(low: &[u32], add: u32, least: u32, bound: u32) -> u32
    requires { (length low.now ≡ 16) × ((k : ℕ) → k < 16 → get_or low.now k 0 ≤ 1073217776) × (add ≤ 1073217776)
        × (least ≡ least_key (λ w. get_or low.now w 0) 0 16) }
    ensures { result ≡ least_key (λ w. get_or low.now w 0 + add) bound 16 }
{
    if bound <= least + add {
        return least + add;
    }
    let key = least_key(low, bound - add);
    if key == u32::MAX {
        return key;
    }
    key + add
}

// The same of the keys of all bytes. The number of half bytes is passed, not written here: with 16 the compiler would make one sweep over all
// bytes of the few that are needed.
fn least_byte(halves: &[u32; 256], side: usize, bound: u32) -> u32
    requires { (side ≡ 16) × ((k : ℕ) → k < 32 → get_or halves.now k 0 ≤ 1073217776) }
    ensures { result ≡ least_key (byte_key halves.now) bound 256 }
{
    let low = &halves[..side];
    let least = least_key(low, 0);
    let mut best = u32::MAX;
    for add in &halves[16..16 + side] {
        best = least_row(low, *add, least, bound).min(best);
    }
    best
}

// The settings of 8 free indices that make the words of one bit, the highest bit first.
fn back() -> [u32; 9]
    ensures { result ≡ back_rows }
{
    [0, 0xff, 0xaa, 0xcc, 0x88, 0xf0, 0xa0, 0xc0, 0x80]
}

// The setting of 8 free indices that makes a byte.
pub fn setting_of(byte: u32) -> u32
    ensures { result ≡ spread back_rows 0 8 byte }
{
    let steps = back();
    spread_at(&steps, 8, byte)
}

// A bound on keys of 64 bits, as one on those of 32.
fn narrow(bound: u64) -> u32
    ensures { (c x : ℕ) → c < 8388608 → x < 256 → leb bound (key_of c x) ≡ leb result (c * 256 + x) }
{
    let cost = bound / 4294967296;
    let number = bound % 4294967296;
    if cost >= 8388608 {
        return u32::MAX;
    }
    if number >= 256 {
        return (cost * 256 + 256) as u32;
    }
    (cost * 256 + number) as u32
}

// The word of a setting, by its key.
pub fn word_with(sets: &[u32; 9], free: usize, setting: u32, key: u32) -> Candidate
    requires { free ≤ 8 }
    ensures { result ≡ word_with sets.now free setting key }
{
    Candidate {
        some: true,
        setting,
        parities: spread_at(sets, free, setting),
        cost: key / 256,
        number: key % 256,
    }
}

// The word of this key, where all 8 indices are free.
pub fn byte_with(sets: &[u32; 9], key: u32) -> Candidate
    ensures { result ≡ word_with sets.now 8 (spread back_rows 0 8 (key % 256)) key }
{
    word_with(sets, 8, setting_of(key % 256), key)
}

// The word of least key from a bound on, where all 8 indices are free.
pub fn search_bytes(
    values: &[i32; 8],
    directions: &Directions,
    bound: u64,
    halves: &mut [u32; 256],
) -> Candidate
    requires { (directions.now.free ≡ 8) × All (Within 1048064) values.now }
    ensures { (e : ℕ → Entry) → Octets 0 256 8 directions.now.sets e
        → result ≡ answer e values.now (least_from (setting_key e values.now) bound 256) }
{
    fill_halves(values, halves);
    let key = least_byte(halves, directions.free + directions.free, narrow(bound));
    if key == u32::MAX {
        return Candidate {
            some: false,
            setting: 0,
            parities: 0,
            cost: 0,
            number: 0,
        };
    }
    byte_with(&directions.sets, key)
}
