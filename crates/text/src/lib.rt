// What the programs print on standard output: words, numbers, bytes, bits. No contract can speak of output; what is proved is that every index is in
// range and every call returns. Relies on crate io.

#![tactic(auto)]

ghost use Rattle.std.specs.Prelude.{◌≤◌, length};

// Standard output's descriptor.
const STDOUT_FILENO: i32 = 1;

pub fn print_words(words: &[u8]) {
    io::write_all(STDOUT_FILENO, words);
}

pub fn print_number(x: u64) {
    io::print_decimal(STDOUT_FILENO, x);
}

// A number with its sign, where it has one.
pub fn print_signed(x: i32) {
    if x < 0 {
        print_words(b"-");
    }
    print_number(x.unsigned_abs() as u64);
}

// Bytes in hexadecimal, each after a space.
pub fn print_bytes(bytes: &[u8]) {
    for byte in bytes {
        print_words(b" ");
        io::print_hex(STDOUT_FILENO, *byte as u64, 2);
    }
}

// At most 64 bits as digits, written at once.
fn print_some(bits: &[u8])
    requires { length bits.now ≤ 64 }
{
    let mut digits = [b'0'; 64];
    for (i, bit) in bits.iter().enumerate() {
        if *bit != 0 {
            digits[i] = b'1';
        }
    }
    print_words(&digits[..bits.len()]);
}

// Bits as digits.
pub fn print_bits(bits: &[u8]) {
    for some in bits.chunks(64) {
        print_some(some);
    }
}
