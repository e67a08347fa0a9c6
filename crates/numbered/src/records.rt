// Hook records: made from four numbers, and read into a lent slice. Relies on the crates answers, loading and coding; specs/Answers.antt says
// what each answers.
ghost use Rattle.std.specs.Prelude.{◌≡◌};
ghost use Rattle.codebook.specs.Refusals.{outcome_number};
ghost use Rattle.codec.specs.Record.{status_of};
ghost use Rattle.numbered.specs.Answers.{make_record_wrote, record_from, read_record_answer};

use answers::{length_mismatch, put_hook};
use codebook::outcome_number;
use codec::{HookRecord, Status};
use coding::{make_record, read_record};
use loading::load;

// The record of these fields. A status above 4 is no status: a plant that does not fit stands for it.
fn record_from(plant: u32, carcass: u32, side: u32, status: u32) -> HookRecord
    ensures { result ≡ record_from plant carcass side (status_of status) }
{
    let Ok(status) = Status::try_from(status) else {
        return HookRecord {
            plant: 64,
            carcass,
            side,
            status: Status::Passed,
        };
    };
    HookRecord {
        plant,
        carcass,
        side,
        status,
    }
}

// Makes a record into lent data bits.
pub fn make_record_number(
    book: &[u8],
    plant: u32,
    carcass: u32,
    side: u32,
    status: u32,
    bits: &mut [u8],
) -> u32
    ensures { let w = make_record_wrote book.now plant carcass side (status_of status) bits.old in
        (result ≡ outcome_number w.outcome) × (bits.new ≡ w.buffer) }
{
    outcome_number(make_record(book, record_from(plant, carcass, side, status), bits))
}

// Reads the record of data bits.
pub fn read_record_answer(book: &[u8], bits: &[u8], hook: &mut [u32]) -> u32
    ensures { let a = read_record_answer book.now bits.now hook.old in
        (result ≡ a.number) × (hook.new ≡ a.slice) }
{
    let fits = hook.len() == 4;
    if !fits {
        return length_mismatch(load(book));
    }
    let (number, h) = match read_record(book, bits) {
        Ok(h) => (0, h),
        Err(r) => (u32::from(r), HookRecord::default()),
    };
    put_hook(hook, h);
    number
}
