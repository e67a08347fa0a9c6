// Replays recorded inputs of program `walk`: reads a stream of operations on standard input (reference/README.md has its format), and prints for each case
// the listing that `walk` prints. The output is held to what the independent reference printed. Relies on crates listing, text and numerals.

#![tactic(auto)]

ghost use Rattle.std.specs.Prelude.{◌≤◌, length};

use listing::list;
use numerals::four;
use text::{print_number, print_words};

// Standard input's descriptor.
const STDIN_FILENO: i32 = 0;

// The first `count` bytes, as many as there are and fit, at the start of the input: their number.
fn copy_input(bytes: &[u8], count: usize, input: &mut [u8]) -> usize
    ensures { (result ≤ length bytes.now) × (result ≤ length input.old) }
{
    let n = count.min(bytes.len()).min(input.len());
    input[..n].copy_from_slice(&bytes[..n]);
    n
}

// So many bytes of a value after the input, as many as fit: the whole length.
fn pad(input: &mut [u8], size: usize, count: usize, value: u8) -> usize
    requires { size ≤ length input.old }
    ensures { (size ≤ result) × (result ≤ length input.old) }
{
    let end = size + count.min(input.len() - size);
    input[size..end].fill(value);
    end
}

// A case: its number, and the listing of the input's first bytes.
fn print_case(case: u64, input: &[u8], count: usize) {
    print_words(b"case ");
    print_number(case);
    print_words(b"\n");
    if count <= input.len() {
        list(&input[..count]);
    }
}

// The operations of the stream, one after another: a new input, one byte of it changed, or a case, of the input's first bytes or of the padded input. It
// ends at any other operation.
fn replay(stream: &[u8], input: &mut [u8]) {
    let mut case: u64 = 0;
    let mut size = 0;
    let mut rest = stream;
    while 5 < rest.len() {
        let field = four(rest, 1) as usize;
        match rest[0] {
            1 => {
                size = copy_input(&rest[5..], field, input);
                rest = &rest[5 + size..];
            }
            2 => {
                if let Some(byte) = input.get_mut(field) {
                    *byte = rest[5];
                }
                rest = &rest[6..];
            }
            3 => {
                case += 1;
                print_case(case, input, field);
                rest = &rest[5..];
            }
            4 => {
                case += 1;
                let whole = pad(input, size, field, rest[5]);
                print_case(case, input, whole);
                rest = &rest[6..];
            }
            _ => return,
        }
    }
}

fn main() {
    let mut stream = [0u8; 131072];
    let n = io::read_full(STDIN_FILENO, &mut stream);
    let mut input = [0u8; 131072];
    replay(&stream[..n], &mut input);
}
