// Replays recorded load cases: reads a stream of operations on standard input (reference/README.md has its format), and prints for each case what
// the load call answers. The output is held to what the independent reference printed. Relies on loading::load, numerals::two and crate text.

#![tactic(auto)]

ghost use Rattle.std.specs.Prelude.{◌≤◌, length};

use codebook::{Refusal, Shape};
use numerals::two;
use text::{print_number, print_words};

// Standard input's descriptor.
const STDIN_FILENO: i32 = 0;

// N load A n k V, the last three 0 after a refusal
fn print_case(case: u64, loaded: Result<Shape, Refusal>) {
    let fields = match loaded {
        Ok(x) => [0, x.n, x.k, x.blocks],
        Err(r) => [u32::from(r), 0, 0, 0],
    };
    print_number(case);
    print_words(b" load");
    for field in fields {
        print_words(b" ");
        print_number(field as u64);
    }
    print_words(b"\n");
}

// The case of the book's first bytes.
fn load_case(case: u64, book: &[u8], count: usize) {
    if count <= book.len() {
        print_case(case, loading::load(&book[..count]));
    }
}

// The first `count` bytes, as many as there are and fit, at the start of the book: their number.
fn copy_book(bytes: &[u8], count: usize, book: &mut [u8]) -> usize
    ensures { (result ≤ count) × (result ≤ length bytes.now) }
{
    let n = count.min(bytes.len()).min(book.len());
    book[..n].copy_from_slice(&bytes[..n]);
    n
}

// The operations of the stream, one after another: a new book, one byte of it changed, or a case. It ends where a book is cut off or does not fit, and
// at any other operation.
fn replay(stream: &[u8], book: &mut [u8]) {
    let mut case: u64 = 0;
    let mut rest = stream;
    while 3 < rest.len() {
        let field = two(rest, 1) as usize;
        match rest[0] {
            1 => {
                let bytes = &rest[3..];
                if copy_book(bytes, field, book) < field {
                    return;
                }
                rest = &bytes[field..];
            }
            2 => {
                if let Some(byte) = book.get_mut(field) {
                    *byte = rest[3];
                }
                rest = &rest[4..];
            }
            3 => {
                case += 1;
                load_case(case, book, field);
                rest = &rest[3..];
            }
            _ => return,
        }
    }
}

fn main() {
    let mut input = [0u8; 262144];
    let n = io::read_full(STDIN_FILENO, &mut input);
    let mut book = io::large_buffer();
    replay(&input[..n], &mut book);
}
