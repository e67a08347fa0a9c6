// Values of one height from those of the height above, and a block's word, written into arrays of the workspace. Relies on the crates numerals and polar;
// specs/Workspace.antt says where an array stands, reader/specs/Arrays what a write leaves.
ghost use Rattle.std.specs.Prelude.{◌≡◌, List, ℕ, suc, ◌+◌, ◌^◌, ◌≤◌, ◌<◌, length, take, drop, ℤ};
ghost use Rattle.laws.specs.Lists.{All};
ghost use Rattle.polar.specs.Soft.{Qs, Ps};
ghost use Rattle.polar.specs.Layers.{part, Within};
ghost use Rattle.reader.specs.Arrays.{store};
ghost use Rattle.heights.specs.Workspace.{spot, Room, Id, Parts, bits_of};

use crate::Layout;
use numerals::power;
use polar::layers::{copy_values, lower_p, lower_q};

// Where height h of array `id` begins.
pub fn spot_of(m: usize, id: usize, h: usize) -> usize
    requires { (m ≤ 9) × (h ≤ m) × Id 256 id }
    ensures { result ≡ spot m id h }
{
    (id - 1) * (2 * power(m)) + power(h)
}

// The values of height h of array `to` become Q of the halves of those of the height above of array `from`.
pub fn first_half(numbers: &mut [i32], layout: Layout, h: usize, from: usize, to: usize)
    requires m_bound { (layout.m ≤ 9) × (h < layout.m) × (layout.arrays ≤ 256) × Room layout.m layout.arrays numbers.old × Id layout.arrays from × Id layout.arrays to }
    requires all { All (Within 1048064) (part (spot layout.m from (suc h)) (2 ^ suc h) numbers.old) }
    ensures numbers_len_unchanged { length numbers.new ≡ length numbers.old }
    ensures by_index { (vals : ℕ → ℕ → List ℤ) → Parts layout.m layout.arrays numbers.old vals → (let ys = vals (suc h) from in
        Parts layout.m layout.arrays numbers.new (store vals h to (Qs (take (2 ^ h) ys) (drop (2 ^ h) ys)))) }
{
    let n = power(h);
    lower_q(
        numbers,
        spot_of(layout.m, from, h + 1),
        spot_of(layout.m, to, h),
        n,
    );
}

// The same by P, for the second half: the word of the first half is in the sums of height h of array `word`.
pub fn second_half(
    numbers: &mut [i32],
    bytes: &[u8],
    layout: Layout,
    h: usize,
    from: usize,
    word: usize,
    to: usize,
)
    requires m_bound { (layout.m ≤ 9) × (h < layout.m) × (layout.arrays ≤ 256) × Room layout.m layout.arrays numbers.old × Room layout.m layout.arrays bytes.now }
    requires id { Id layout.arrays from × Id layout.arrays word × Id layout.arrays to }
    requires all { All (Within 524032) (part (spot layout.m from (suc h)) (2 ^ suc h) numbers.old) }
    ensures numbers_len_unchanged { length numbers.new ≡ length numbers.old }
    ensures by_index { (vals : ℕ → ℕ → List ℤ) (sums : ℕ → ℕ → List ℕ) → Parts layout.m layout.arrays numbers.old vals
        → Parts layout.m layout.arrays bytes.now sums → (let ys = vals (suc h) from in
        Parts layout.m layout.arrays numbers.new (store vals h to (Ps (sums h word) (take (2 ^ h) ys) (drop (2 ^ h) ys)))) }
{
    let n = power(h);
    lower_p(
        numbers,
        bytes,
        spot_of(layout.m, from, h + 1),
        spot_of(layout.m, to, h),
        spot_of(layout.m, word, h),
        n,
    );
}

// The values of height h of array `from`, copied to array `to`.
pub fn copy_half(numbers: &mut [i32], layout: Layout, h: usize, from: usize, to: usize)
    requires { (layout.m ≤ 9) × (h ≤ layout.m) × (layout.arrays ≤ 256) × Room layout.m layout.arrays numbers.old × Id layout.arrays from × Id layout.arrays to }
    ensures numbers_len_unchanged { length numbers.new ≡ length numbers.old }
    ensures by_index { (vals : ℕ → ℕ → List ℤ) → Parts layout.m layout.arrays numbers.old vals
        → Parts layout.m layout.arrays numbers.new (store vals h to (vals h from)) }
{
    let n = power(h);
    copy_values(
        numbers,
        spot_of(layout.m, from, h),
        spot_of(layout.m, to, h),
        n,
    );
}

// The lowest bits of a word, as many as the slice has bytes.
pub fn put_word(bits: &mut [u8], word: u32)
    ensures { bits.new ≡ bits_of (length bits.old) word }
{
    let mut left = word;
    for bit in bits.iter_mut() {
        *bit = (left % 2) as u8;
        left /= 2;
    }
}
