// One input from its bytes to its listing. Relies on input.rt, lines.rt, the crate numerals, loading::load and decoder::decode.
ghost use Rattle.std.specs.Prelude.{◌+◌, ◌≤◌, length, IfOk};

use crate::input::{book_length, read_values};
use crate::lines::{print_refused, print_walk, print_word};
use codebook::{Refusal, Shape};
use decoder::decode;
use loading::load;
use machine::{Output, Walk, Workspace};
use numerals::{four, two};
use settings::Settings;

// The book's shape, with no more data than a word is long.
fn shape(book: &[u8]) -> Result<Shape, Refusal>
    ensures { IfOk result (λ x. x.k ≤ x.n) }
{
    load(book)
}

// Decodes with these settings into word and data, and prints the listing.
fn decoded(
    book: &[u8],
    settings: Settings,
    values: &[i16],
    out: &mut Output,
) -> Result<(), Refusal> {
    let mut numbers = [0i32; 10240];
    let mut bytes = [0u8; 8192];
    let mut path = [0i32; 2049];
    let mut blocks = [0i32; 2049];
    let mut score = [0i32; 2049];
    let mut workspace = Workspace {
        numbers: &mut numbers,
        bytes: &mut bytes,
    };
    let mut walk = Walk {
        path: &mut path,
        blocks: &mut blocks,
        score: &mut score,
    };
    let r = decode(book, settings, values, out, &mut workspace, &mut walk);
    r.outcome?;
    print_walk(&walk, r.counts.extractions as usize);
    print_word(out.word, r.counts.discrepancy);
    Ok(())
}

// The listing of an input whose book has so many bytes: 8 in its place also beyond m = 6 or D = 64.
fn list_whole(s: &[u8], size: usize) -> Result<(), Refusal>
    requires { size + 9 ≤ length s.now }
{
    let end = 2 + size;
    let settings = Settings {
        visits: s[end] as u32,
        paths: two(s, end + 1),
        limit: four(s, end + 3),
    };
    let book = &s[2..end];
    let x = shape(book)?;
    let n = x.n as usize;
    let k = x.k as usize;
    if 64 < n || 64 < settings.paths {
        return Err(Refusal::BadSetting);
    }
    let mut values = [0i16; 64];
    let count = read_values(&s[end + 7..], &mut values);
    let mut word = [0u8; 64];
    let mut bits = [0u8; 64];
    let mut out = Output {
        word: &mut word[..n],
        bits: &mut bits[..k],
    };
    decoded(book, settings, &values[..count], &mut out)
}

// The listing of an input: 7 first of all where it ends before T is whole.
fn list_input(s: &[u8]) -> Result<(), Refusal> {
    let size = book_length(s).ok_or(Refusal::Mismatch)?;
    list_whole(s, size)
}

// Prints the listing of an input, or its refusal.
pub fn list(s: &[u8]) {
    if let Err(why) = list_input(s) {
        print_refused(why);
    }
}
