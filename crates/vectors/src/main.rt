// Replays recorded cases of every call but load: reads a stream of operations on standard input (reference/README.md has its format) and prints what
// each case answers and leaves in the lent buffers. The output is held to what the independent reference printed. Relies on the crates coding, decoder,
// text and numerals.

#![tactic(auto)]

mod answers;
mod buffers;
mod codewords;
mod decoding;
mod lines;
mod records;
mod stream;

use crate::buffers::{Buffers, lend};
use crate::codewords::{encode_case, read_case, test_case};
use crate::decoding::decode_case;
use crate::records::{make_case, record_case};
use crate::stream::{Operation, next, next_operation};
use machine::Reads;
use numerals::two;

// A new book: its length.
fn new_book(book: &mut [u8]) -> usize {
    let mut fields = [0u8; 2];
    next(&mut fields);
    let count = two(&fields, 0) as usize;
    next(lend(book, count));
    count
}

// One byte of the book changed for good.
fn patch(book: &mut [u8]) {
    let mut fields = [0u8; 3];
    next(&mut fields);
    if let Some(byte) = book.get_mut(two(&fields, 0) as usize) {
        *byte = fields[2];
    }
}

// A case of a book.
fn any_case(operation: Operation, case: u64, book: &[u8], buffers: &mut Buffers) {
    match operation {
        Operation::Encode => encode_case(case, book),
        Operation::Test => test_case(case, book),
        Operation::ReadData => read_case(case, book),
        Operation::MakeRecord => make_case(case, book),
        Operation::ReadRecord => record_case(case, book),
        Operation::Decode => decode_case(case, Reads::Data, book, buffers),
        Operation::DecodeHook => decode_case(case, Reads::Record, book, buffers),
        _ => {}
    }
}

// The operations of the stream, up to 100,000. The book is the first bytes of its room.
fn replay(room: &mut [u8], buffers: &mut Buffers) {
    let mut count: usize = 0;
    let mut case: u64 = 0;
    for _turn in 0..100000u64 {
        let Some(operation) = next_operation() else {
            return;
        };
        match operation {
            Operation::Book => count = new_book(room),
            Operation::Patch => patch(room),
            _ => {
                case += 1;
                any_case(operation, case, lend(room, count), buffers);
            }
        }
    }
}

fn main() {
    let mut room = [0u8; 8000];
    let mut buffers = Buffers {
        numbers: [0; 270344],
        bytes: [0; 262152],
        path: [0; 16385],
        blocks: [0; 16385],
        score: [0; 16385],
    };
    replay(&mut room, &mut buffers);
}
