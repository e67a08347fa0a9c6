// A command of a book in words. Relies on crates text and numerals.
ghost use Rattle.std.specs.Prelude.{◌≤◌, length};

use numerals::{four, two};
use text::{print_bytes, print_number, print_signed, print_words};

// The bytes of a command with this first byte; a byte that is not listed stands alone.
pub fn width(first: u8) -> usize
    ensures { (1 ≤ result) × (result ≤ 6) }
{
    match first {
        0x10 => 2,
        0x01 | 0x02 | 0x03 | 0x04 => 3,
        0x05 => 6,
        _ => 1,
    }
}

// What a whole command says, of which these are the first bytes.
fn print_meaning(c: &[u8])
    requires { 6 ≤ length c.now }
{
    match c[0] {
        0x10 => {
            print_words(b"length 2^");
            print_number(c[1] as u64);
        }
        0x01 => {
            print_number(two(c, 1) as u64);
            print_words(b" free");
        }
        0x02 => {
            print_number(two(c, 1) as u64);
            print_words(b" zero");
        }
        0x03 => {
            print_words(b"tied to ");
            print_number(two(c, 1) as u64);
        }
        0x04 => {
            print_words(b"and to ");
            print_number(two(c, 1) as u64);
        }
        0x05 => {
            print_words(b"block of 2^");
            print_number(c[1] as u64);
            print_words(b", bias ");
            print_signed(four(c, 2).cast_signed());
        }
        0x7F => {
            print_words(b"end");
        }
        _ => {
            print_words(b"not listed");
        }
    }
}

// A line for the command of these bytes at an offset: the offset, the bytes, what it says.
pub fn print_command(at: usize, bytes: &[u8])
    requires { (1 ≤ length bytes.now) × (length bytes.now ≤ 6) }
{
    print_number(at as u64);
    print_words(b":");
    print_bytes(bytes);
    print_words(b"  ");
    if bytes.len() < width(bytes[0]) {
        print_words(b"cut");
    } else {
        let mut c = [0u8; 6];
        c[..bytes.len()].copy_from_slice(bytes);
        print_meaning(&c);
    }
    print_words(b"\n");
}
