// Bits and the numbers that they hold, each number's highest bit first. Relies on no other file; codec/specs/Calls says what bits are, polar/specs/Bits
// what a number's bits are.

ghost use Rattle.std.specs.Prelude.{◌≡◌, ◌≤◌, length};
ghost use Rattle.laws.specs.Lists.{All};
ghost use Rattle.polar.specs.Bits.{Bit, to_bits, from_bits};
ghost use Rattle.codec.specs.Calls.{are_bits};

// Whether every entry is 0 or 1.
#[tactic(auto, unfolding(codec::specs::Calls::are_bits))]
pub fn are_bits(bits: &[u8]) -> bool
    ensures { result ≡ are_bits bits.now }
{
    bits.iter().all(|bit| *bit <= 1)
}

// Writes x as bits, as many as there are to write.
pub fn put_field(bits: &mut [u8], x: u32)
    requires { length bits.old ≤ 20 }
    ensures { bits.new ≡ to_bits (length bits.old) x }
{
    let width = bits.len();
    for (i, bit) in bits.iter_mut().enumerate() {
        *bit = ((x >> (width - 1 - i)) % 2) as u8;
    }
}

// The number that bits hold.
pub fn field(bits: &[u8]) -> u32
    requires short { length bits.now ≤ 20 }
    requires bits { All Bit bits.now }
    ensures { result ≡ from_bits 0 bits.now }
{
    let mut x: u32 = 0;
    for bit in bits {
        x = 2 * x + u32::from(*bit);
    }
    x
}
