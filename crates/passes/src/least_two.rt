// The two least keys of a pass over settings, with the settings: one key more at a time. Relies on no other file.
ghost use Rattle.std.specs.Prelude.{◌≡◌, cond, ℕ, ◌+◌, ◌≤◌, ◌<◌, ltb};
ghost use Rattle.outer.specs.Search.{key_of};
ghost use Rattle.passes.specs.Pass.{two_least, opened};

use crate::Two;

// A cost and a number as one key: the cost counts first.
pub fn key(cost: u32, number: u32) -> u64
    ensures { result ≡ key_of cost number }
{
    (cost as u64) * 4294967296 + number as u64
}

// No key yet.
pub fn none() -> Two
    ensures { (k : ℕ → ℕ) (bound : ℕ) → result ≡ two_least k bound 0 }
{
    Two {
        first: u64::MAX,
        second: u64::MAX,
        at: 0,
        next: 0,
    }
}

// x where a is below b, else y. (That b is at most the greatest number is said for callers that have it in a struct.)
fn either<T: Copy>(a: u64, b: u64, x: T, y: T) -> T
    ensures { (result ≡ cond (ltb a b) x y) × (b ≤ 18446744073709551615) }
{
    if a < b { x } else { y }
}

// A key that is not below the bound, and is not the first; else the greatest number.
fn open(key: u64, bound: u64, first: u64) -> u64
    ensures { result ≡ opened key bound first }
{
    let later = either(key, bound, u64::MAX, key);
    if later == first { u64::MAX } else { later }
}

// The two least with the key of one setting more, by its cost and its number, where it is not below the bound; the earlier of equals. It is all choices and
// no branch, since which keys are least cannot be foreseen.
pub fn among(two: Two, bound: u64, cost: u32, number: u32, setting: usize) -> Two
    requires { cost < 4294967295 }
    ensures { (k : ℕ → ℕ) → two ≡ two_least k bound setting → key_of cost number ≡ k setting → result ≡ two_least k bound (setting + 1) }
{
    let least = two.first;
    let less = two.second;
    let x = open(key(cost, number), bound, least);
    let second = either(x, less, x, less);
    let next = either(x, less, setting, two.next);
    Two {
        first: either(x, least, x, least),
        second: either(x, least, least, second),
        at: either(x, least, setting, two.at),
        next: either(x, least, two.at, next),
    }
}

// The same, of a pass over so many settings. Where they are many, a cost above that of the second least is passed over by a branch: then it is foreseen
// nearly always.
pub fn sift(two: Two, bound: u64, cost: u32, number: u32, setting: usize, count: usize) -> Two
    requires { cost < 4294967295 }
    ensures { (k : ℕ → ℕ) → two ≡ two_least k bound setting → key_of cost number ≡ k setting → result ≡ two_least k bound (setting + 1) }
{
    if count > 64 {
        if two.second / 4294967296 < cost as u64 {
            return two;
        }
    }
    among(two, bound, cost, number, setting)
}

// The two least with the keys of two settings more, this one and the next. Both are passed over by a branch where both costs are above that of the second
// least: where settings are many, it is foreseen nearly always.
pub fn sift_both(
    two: Two,
    bound: u64,
    cost: u32,
    number: u32,
    other: u32,
    next: u32,
    setting: usize,
) -> Two
    requires { (cost < 4294967295) × (other < 4294967295) × (setting < 18446744073709551615) }
    ensures { (k : ℕ → ℕ) → two ≡ two_least k bound setting → key_of cost number ≡ k setting → key_of other next ≡ k (setting + 1) → result ≡ two_least k bound (setting + 2) }
{
    let limit = two.second / 4294967296;
    if cost as u64 <= limit || other as u64 <= limit {
        let one = among(two, bound, cost, number, setting);
        return among(one, bound, other, next, setting + 1);
    }
    two
}
