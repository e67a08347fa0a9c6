// The calls as C sees them: slices are a pointer and a length, and each function answers 0 or the number of the refusal. include/saddlemint.h
// declares them. Relies on the crates numbered and slices, whose calls these are, and adds the names.

#![tactic(auto)]

ghost use Rattle.std.specs.Prelude.{◌≡◌};
ghost use Rattle.codebook.specs.Refusals.{outcome_number};
ghost use Rattle.codec.specs.Record.{status_of};
ghost use Rattle.codec.specs.Calls.{encode_call, test_call, read_data_call};
ghost use Rattle.codec.specs.Numbers.{tested_number};
ghost use Rattle.settings.specs.Settings.{asked};
ghost use Rattle.machine.specs.Calls.{given, lent_before, lent_after};
ghost use Rattle.numbered.specs.Answers.{load_answer, make_record_wrote, read_record_answer};
ghost use Rattle.slices.specs.Slices.{PlainSlices, HookSlices};

use machine::{Output, Walk, Workspace};
use numbered::{
    encode_number, load_answer, make_record_number, read_data_number, read_record_answer,
    test_number,
};
use settings::Settings;
use slices::{decode_hook_slices, decode_slices};

// Loads a book: its n, k and V.
#[unsafe(no_mangle)]
pub extern "C" fn saddlemint_load(book: &[u8], shape: &mut [u32]) -> u32
    ensures { let a = load_answer book.now shape.old in (result ≡ a.number) × (shape.new ≡ a.slice) }
{
    load_answer(book, shape)
}

// Encodes data bits into a lent word.
#[unsafe(no_mangle)]
pub extern "C" fn saddlemint_encode(book: &[u8], bits: &[u8], word: &mut [u8]) -> u32
    ensures { let w = encode_call book.now bits.now word.old in
        (result ≡ outcome_number w.outcome) × (word.new ≡ w.buffer) }
{
    encode_number(book, bits, word)
}

// Tests a word.
#[unsafe(no_mangle)]
pub extern "C" fn saddlemint_test(book: &[u8], word: &[u8]) -> u32
    ensures { result ≡ tested_number (test_call book.now word.now) }
{
    test_number(book, word)
}

// Reads the data bits of a word into lent data.
#[unsafe(no_mangle)]
pub extern "C" fn saddlemint_read_data(book: &[u8], word: &[u8], bits: &mut [u8]) -> u32
    ensures { let w = read_data_call book.now word.now bits.old in
        (result ≡ outcome_number w.outcome) × (bits.new ≡ w.buffer) }
{
    read_data_number(book, word, bits)
}

// Makes a record into lent data bits.
#[unsafe(no_mangle)]
pub extern "C" fn saddlemint_make_record(
    book: &[u8],
    plant: u32,
    carcass: u32,
    side: u32,
    status: u32,
    bits: &mut [u8],
) -> u32
    ensures { let w = make_record_wrote book.now plant carcass side (status_of status) bits.old in
        (result ≡ outcome_number w.outcome) × (bits.new ≡ w.buffer) }
{
    make_record_number(book, plant, carcass, side, status, bits)
}

// Reads the record of data bits.
#[unsafe(no_mangle)]
pub extern "C" fn saddlemint_read_record(book: &[u8], bits: &[u8], hook: &mut [u32]) -> u32
    ensures { let a = read_record_answer book.now bits.now hook.old in
        (result ≡ a.number) × (hook.new ≡ a.slice) }
{
    read_record_answer(book, bits, hook)
}

// Decodes values: word, data, walk and counts.
#[unsafe(no_mangle)]
pub extern "C" fn saddlemint_decode(
    book: &[u8],
    visits: u32,
    paths: u32,
    limit: u32,
    values: &[i16],
    word: &mut [u8],
    bits: &mut [u8],
    numbers: &mut [i32],
    bytes: &mut [u8],
    walk_path: &mut [i32],
    walk_blocks: &mut [i32],
    walk_score: &mut [i32],
    counts: &mut [u32],
) -> u32
    ensures { PlainSlices (given book.now (asked visits paths limit) values.now)
        (lent_before word bits numbers bytes walk_path walk_blocks walk_score) counts.old
        result (lent_after word bits numbers bytes walk_path walk_blocks walk_score) counts.new }
{
    let s = Settings {
        visits,
        paths,
        limit,
    };
    let mut out = Output { word, bits };
    let mut workspace = Workspace { numbers, bytes };
    let mut walk = Walk {
        path: walk_path,
        blocks: walk_blocks,
        score: walk_score,
    };
    decode_slices(book, s, values, &mut out, &mut workspace, &mut walk, counts)
}

// Decodes values, and reads the record of the word's data.
#[unsafe(no_mangle)]
pub extern "C" fn saddlemint_decode_hook(
    book: &[u8],
    visits: u32,
    paths: u32,
    limit: u32,
    values: &[i16],
    word: &mut [u8],
    bits: &mut [u8],
    numbers: &mut [i32],
    bytes: &mut [u8],
    walk_path: &mut [i32],
    walk_blocks: &mut [i32],
    walk_score: &mut [i32],
    counts: &mut [u32],
    hook: &mut [u32],
) -> u32
    ensures { HookSlices (given book.now (asked visits paths limit) values.now)
        (lent_before word bits numbers bytes walk_path walk_blocks walk_score) counts.old hook.old
        result (lent_after word bits numbers bytes walk_path walk_blocks walk_score) counts.new hook.new }
{
    let s = Settings {
        visits,
        paths,
        limit,
    };
    let mut out = Output { word, bits };
    let mut workspace = Workspace { numbers, bytes };
    let mut walk = Walk {
        path: walk_path,
        blocks: walk_blocks,
        score: walk_score,
    };
    decode_hook_slices(
        book,
        s,
        values,
        &mut out,
        &mut workspace,
        &mut walk,
        counts,
        hook,
    )
}
