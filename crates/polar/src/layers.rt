// Steps between heights within the lent workspace: values go down by Q and P, sums of words go up. Relies on values.rt; specs/Soft.antt says
// what Q and P are, specs/Layers.antt what a part is.
ghost use Rattle.std.specs.Prelude.{◌≡◌, ◌+◌, ◌≤◌, length, take, drop};
ghost use Rattle.laws.specs.Lists.{All};
ghost use Rattle.polar.specs.Bits.{Bit, add_bits};
ghost use Rattle.polar.specs.Soft.{Qs, Ps};
ghost use Rattle.polar.specs.Layers.{part, over_at, Clear, Within};

use crate::values::{p, q};

// The n values at `to` become Q of the two halves of the 2n values at `from`.
pub fn lower_q(numbers: &mut [i32], from: usize, to: usize, n: usize)
    requires clear { Clear from (n + n) to n numbers.old }
    requires all { All (Within 1048064) (part from (n + n) numbers.old) }
    ensures { let l = numbers.old in
        let ys = part from (n + n) l in
        numbers.new ≡ over_at to (Qs (take n ys) (drop n ys)) l }
{
    for i in 0..n {
        let a = numbers[from + i];
        let b = numbers[from + (n + i)];
        numbers[to + i] = q(a, b);
    }
}

// The n values at `to` become P of the two halves of the 2n values at `from`, by the first half's word, the n bytes at `sums`.
pub fn lower_p(numbers: &mut [i32], bytes: &[u8], from: usize, to: usize, sums: usize, n: usize)
    requires clear { Clear from (n + n) to n numbers.old }
    requires n_in_bounds { sums + n ≤ length bytes.now }
    requires all { All (Within 1048064) (part from (n + n) numbers.old) }
    ensures { let l = numbers.old in
        let ys = part from (n + n) l in
        numbers.new ≡ over_at to (Ps (part sums n bytes.now) (take n ys) (drop n ys)) l }
{
    for i in 0..n {
        let a = numbers[from + i];
        let b = numbers[from + (n + i)];
        numbers[to + i] = p(bytes[sums + i], a, b);
    }
}

// The n bytes at `to` become the sum of the words at `low` and `high`.
pub fn add_sums(bytes: &mut [u8], low: usize, high: usize, to: usize, n: usize)
    requires clear { Clear low n to n bytes.old }
    requires clear_2 { Clear high n to n bytes.old }
    requires all { All Bit (part low n bytes.old) }
    requires all_2 { All Bit (part high n bytes.old) }
    ensures { let l = bytes.old in
        bytes.new ≡ over_at to (add_bits (part low n l) (part high n l)) l }
{
    for i in 0..n {
        bytes[to + i] = bytes[low + i] ^ bytes[high + i];
    }
}

// The n values at `from`, copied to `to`.
pub fn copy_values(numbers: &mut [i32], from: usize, to: usize, n: usize)
    requires { Clear from n to n numbers.old }
    ensures { numbers.new ≡ over_at to (part from n numbers.old) numbers.old }
{
    for i in 0..n {
        numbers[to + i] = numbers[from + i];
    }
}
