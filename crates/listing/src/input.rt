// An input of program `walk`: book length, book, L, D, T, values, all big-endian. Relies on the crate numerals.
ghost use Rattle.std.specs.Prelude.{◌≡◌, ◌+◌, ◌≤◌, ◌<◌, length, take, IfSome, IfNone};
ghost use Rattle.codebook.specs.Loading.{big_endian};

use numerals::two;

// The length of the book, where the input holds it and L, D and T whole; else the input is short.
pub fn book_length(s: &[u8]) -> Option<usize>
    ensures by_index { IfSome result (λ n. (n ≡ big_endian 0 (take 2 s.now)) × (n + 9 ≤ length s.now)) }
    ensures s_len_bound { IfNone result (length s.now < big_endian 0 (take 2 s.now) + 9) }
{
    if s.len() < 2 {
        return None;
    }
    let n = two(s, 0) as usize;
    if s.len() < n + 9 {
        return None;
    }
    Some(n)
}

// The values of these bytes, as many as there are, where they are whole and at most 64; else none, which is no length of a word.
pub fn read_values(bytes: &[u8], values: &mut [i16; 64]) -> usize
    ensures { result ≤ 64 }
{
    let (pairs, rest) = bytes.as_chunks::<2>();
    if pairs.len() > 64 || !rest.is_empty() {
        return 0;
    }
    for (i, pair) in pairs.iter().enumerate() {
        values[i] = i16::from_be_bytes(*pair);
    }
    pairs.len()
}
