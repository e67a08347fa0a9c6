// A byte widened, powers of two, and numbers from bytes, the highest first. Relies on the crate codebook for its definition of bytes as a number.

#![tactic(auto)]

ghost use Rattle.std.specs.Prelude.{◌≡◌, ◌+◌, ◌*◌, ◌^◌, ◌<◌, ◌≤◌, length, take, drop};
ghost use Rattle.codebook.specs.Loading.{big_endian};

// A byte, widened.
pub fn wide(x: u8) -> u32
    ensures { (result ≡ x) × (result < 256) }
{
    x as u32
}

// 2^h.
pub fn power(h: usize) -> usize
    requires { h < 64 }
    ensures { result ≡ 2 ^ h }
{
    1 << h
}

// 2^e as a word of 32 bits.
pub fn word_power(e: u32) -> u32
    requires { e < 32 }
    ensures { result ≡ 2 ^ e }
{
    1 << e
}

// The number that these bytes make.
pub fn number(bytes: &[u8]) -> u32
    requires { length bytes.now ≤ 4 }
    ensures value { result ≡ big_endian 0 bytes.now }
    ensures bound { result < 2 ^ (8 * length bytes.now) }
{
    let mut n = 0;
    for b in bytes {
        n = 256 * n + u32::from(*b);
    }
    n
}

// The number that one, two or four bytes make from a place on.
pub fn one(s: &[u8], at: usize) -> u32
    requires { at + 1 ≤ length s.now }
    ensures { result ≡ big_endian 0 (take 1 (drop at s.now)) }
{
    number(&s[at..at + 1])
}

pub fn two(s: &[u8], at: usize) -> u32
    requires { at + 2 ≤ length s.now }
    ensures { (result ≡ big_endian 0 (take 2 (drop at s.now))) × (result < 65536) }
{
    number(&s[at..at + 2])
}

pub fn four(s: &[u8], at: usize) -> u32
    requires { at + 4 ≤ length s.now }
    ensures { result ≡ big_endian 0 (take 4 (drop at s.now)) }
{
    number(&s[at..at + 4])
}
