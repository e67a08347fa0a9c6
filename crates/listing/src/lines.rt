// The lines of the listing, each with one line feed at its end. Relies on crate text.
ghost use Rattle.std.specs.Prelude.{◌≤◌, length};

use codebook::Refusal;
use machine::Walk;
use text::{print_bits, print_number, print_signed, print_words};

// `refused` and the refusal's number.
pub fn print_refused(why: Refusal) {
    print_words(b"refused ");
    print_number(u32::from(why) as u64);
    print_words(b"\n");
}

// An extraction: number, path, blocks, score.
fn print_step(number: usize, path: i32, blocks: i32, score: i32) {
    print_number(number as u64);
    for field in [path, blocks, score] {
        print_words(b" ");
        print_signed(field);
    }
    print_words(b"\n");
}

// The extractions from the first on, so many of them.
pub fn print_walk(walk: &Walk, count: usize)
    requires { (count ≤ length walk.now.path.now) × (count ≤ length walk.now.blocks.now) × (count ≤ length walk.now.score.now) }
{
    print_words(b"no path blocks score\n");
    for i in 0..count {
        print_step(i + 1, walk.path[i], walk.blocks[i], walk.score[i]);
    }
}

// The final word and its discrepancy.
pub fn print_word(word: &[u8], discrepancy: u32) {
    print_words(b"word ");
    print_bits(word);
    print_words(b" ");
    print_number(discrepancy as u64);
    print_words(b"\n");
}
