// Prints a code book as text: each command at its byte offset, then n, k and V; of a bad book the commands up to the faulty one, then the refusal, the trade's
// word for it and the byte where it stands. What is right or wrong is the proved loader's word alone: a command is good when the book up to its end is
// refused only because it ends there. So it costs a load for every command. The longest good book has 52,083 bytes; of a longer input the bytes read here
// are enough to judge it. Relies on loading::load and crate text.

#![tactic(auto)]

mod command;

ghost use Rattle.std.specs.Prelude.{◌+◌, ◌≤◌, ◌<◌, length};

use codebook::{Refusal, Shape};
use command::{print_command, width};
use loading::load;
use text::{print_number, print_words};

// Standard input's descriptor.
const STDIN_FILENO: i32 = 0;

// Where the command at a place ends, or the book.
fn end_of(book: &[u8], at: usize) -> usize
    requires { at < length book.now }
    ensures { (at < result) × (result ≤ at + 6) × (result ≤ length book.now) }
{
    at + width(book[at]).min(book.len() - at)
}

// Whether the book up to the end of the command at a place is refused only because it ends there.
fn good(book: &[u8], at: usize, next: usize) -> bool
    requires { (at < next) × (next ≤ length book.now) }
{
    next - at >= width(book[at]) && load(&book[..next]) == Err(Refusal::Truncated)
}

// Prints the commands up to the last or the first faulty one: its place, or the book's end.
fn list(book: &[u8]) -> usize
    ensures { result ≤ length book.now }
{
    let mut at = 0;
    while at < book.len() {
        let next = end_of(book, at);
        print_command(at, &book[at..next]);
        if !good(book, at, next) {
            return at;
        }
        at = next;
    }
    at
}

// The trade's word for a refusal of a book.
fn print_word(r: Refusal) {
    match r {
        Refusal::Truncated => print_words(b" short"),
        Refusal::Unknown => print_words(b" strange"),
        Refusal::Misplaced => print_words(b" misplaced"),
        Refusal::OutOfRange => print_words(b" off range"),
        Refusal::TooManyTied => print_words(b" overtied"),
        _ => print_words(b" heavy"),
    }
}

// The byte that is at fault: a command's first, or the first after the end.
fn fault(book: &[u8], at: usize) -> usize {
    if book.len() <= at {
        return book.len();
    }
    let next = end_of(book, at);
    if load(&book[..next]).is_ok() {
        next
    } else {
        at
    }
}

fn print_shape(x: Shape) {
    print_words(b"n ");
    print_number(x.n as u64);
    print_words(b", k ");
    print_number(x.k as u64);
    print_words(b", V ");
    print_number(x.blocks as u64);
    print_words(b"\n");
}

// The refusal of a book whose commands end, or one of them is faulty, at a place.
fn print_refusal(r: Refusal, book: &[u8], at: usize) {
    print_words(b"refused ");
    print_number(u32::from(r) as u64);
    print_word(r);
    print_words(b" at byte ");
    print_number(fault(book, at) as u64);
    print_words(b"\n");
}

fn show(book: &[u8]) {
    let at = list(book);
    match load(book) {
        Ok(x) => print_shape(x),
        Err(r) => print_refusal(r, book, at),
    }
}

fn main() {
    let mut book = io::large_buffer();
    let n = io::read_full(STDIN_FILENO, &mut book);
    show(&book[..n]);
}
