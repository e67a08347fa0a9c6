// The nearest word and the next after it, of a block of 8 positions where all indices are free, or all but the first (a single parity check, or a coset
// of it): the words are all bytes, or all of one parity, so the nearest and the next differ from the hard decisions where turning a bit adds least to
// the key. Relies on bytes.rt; specs/Flips.antt says what is added.
ghost use Rattle.std.specs.Prelude.{◌≡◌, ℕ, ◌+◌, ◌*◌, ◌%◌, ◌≤◌, ◌<◌, get_or};
ghost use Rattle.laws.specs.Lists.{All};
ghost use Rattle.polar.specs.Layers.{Within};
ghost use Rattle.outer.specs.Search.{Entry, spread, key_of, setting_key, least_from, answer};
ghost use Rattle.short.specs.Short.{back_rows, Octets, word_with};
ghost use Rattle.short.specs.Flips.{weighed, led_more, led};

use crate::Lead;
use crate::bytes::{byte_with, setting_of, word_with};
use outer::{Candidate, Pair};
use polar::values::magnitude;
use tables::Directions;

// One weight more.
fn weigh(x: Lead, w: u32) -> Lead
    ensures { result ≡ weighed w x }
{
    if w < x.least {
        return Lead {
            least: w,
            next: x.least,
            ..x
        };
    }
    if w < x.next {
        return Lead { next: w, ..x };
    }
    x
}

// One position more, before the others: its value, and what a 1 there counts in the number.
fn more(x: Lead, s: i32, bit: u32) -> Lead
    requires { Within 1048064 s × (bit ≤ 128) × (x.base ≤ 256) × (x.odd ≤ 1) }
    ensures { (result ≡ led_more s bit x) × (result.base ≤ x.base + bit) × (result.odd ≤ 1) }
{
    let w = magnitude(s) * 256;
    if s < 0 {
        let turned = Lead {
            base: x.base + bit,
            odd: 1 - x.odd,
            ..x
        };
        return weigh(turned, w - bit);
    }
    weigh(x, w + bit)
}

// The hard decisions at the values, and the two least weights.
fn lead(values: &[i32; 8]) -> Lead
    requires { All (Within 1048064) values.now }
    ensures { result ≡ led 1 values.now }
{
    let mut x = Lead {
        base: 0,
        odd: 0,
        least: u32::MAX,
        next: u32::MAX,
    };
    let mut bit: u32 = 256;
    for i in (0..8).rev() {
        bit = bit / 2;
        x = more(x, values[i], bit);
    }
    x
}

// The nearest word where all 8 indices are free, and the next after it: the hard decisions, and these with the bit of least weight turned.
pub fn pair_free(values: &[i32; 8], directions: &Directions) -> Pair
    requires { All (Within 1048064) values.now }
    ensures { (e : ℕ → Entry) → Octets 0 256 8 directions.now.sets e
        → (result.first ≡ answer e values.now (least_from (setting_key e values.now) 0 256))
        × (result.second ≡ answer e values.now (least_from (setting_key e values.now) (key_of result.first.cost result.first.number + 1) 256)) }
{
    let ties = &directions.sets;
    let x = lead(values);
    Pair {
        first: byte_with(ties, x.base),
        second: byte_with(ties, x.base + x.least),
    }
}

// The word of this key, where all indices but the first are free.
fn checked_with(ties: &[u32; 9], key: u32) -> Candidate
    ensures { result ≡ word_with ties.now 7 (spread back_rows 0 8 (key % 256) % 128) key }
{
    word_with(ties, 7, setting_of(key % 256) % 128, key)
}

// The nearest word where all indices but the first are free, and the next after it: the words are the bytes of one parity. Where the hard decisions have
// it, they come first, then these with the two bits of least weight turned; else these with one of the two turned.
pub fn pair_checked(values: &[i32; 8], directions: &Directions) -> Pair
    requires { All (Within 1048064) values.now × (get_or directions.now.words 0 0 < 2) }
    ensures { (e : ℕ → Entry) → Octets (128 * get_or directions.now.words 0 0) 128 7 directions.now.sets e
        → (result.first ≡ answer e values.now (least_from (setting_key e values.now) 0 128))
        × (result.second ≡ answer e values.now (least_from (setting_key e values.now) (key_of result.first.cost result.first.number + 1) 128)) }
{
    let ties = &directions.sets;
    let x = lead(values);
    if x.odd == directions.words[0] {
        return Pair {
            first: checked_with(ties, x.base),
            second: checked_with(ties, x.base + x.least + x.next),
        };
    }
    Pair {
        first: checked_with(ties, x.base + x.least),
        second: checked_with(ties, x.base + x.next),
    }
}
