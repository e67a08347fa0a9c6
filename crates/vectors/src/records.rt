// The cases of making and reading a record. Each reads its fields from the stream. Relies on stream.rt, buffers.rt, lines.rt and the crates coding and numerals.
use crate::buffers::{fill, lend, sum};
use crate::lines::{begin, end_line, print_bits, print_number, print_outcome};
use crate::stream::next;
use codec::{HookRecord, Status};
use numerals::{four, one, two};

// N make A DATA, the checksum of data
fn make_into(case: u64, book: &[u8], h: HookRecord, data: &mut [u8]) {
    fill(data);
    let outcome = coding::make_record(book, h, data);
    begin(case, b" make");
    print_outcome(outcome);
    print_bits(outcome, data);
    print_number(sum(data));
    end_line();
}

// The stream has no status above 4.
pub fn make_case(case: u64, book: &[u8]) {
    let mut fields = [0u8; 9];
    next(&mut fields);
    let h = HookRecord {
        plant: one(&fields, 2),
        carcass: four(&fields, 3),
        side: one(&fields, 7),
        status: Status::try_from(one(&fields, 8)).unwrap_or(Status::Condemned),
    };
    let mut data = [0u8; 513];
    let lent = lend(&mut data, two(&fields, 0) as usize);
    make_into(case, book, h, lent);
}

// plant carcass side status
pub fn print_record(h: HookRecord) {
    for field in [h.plant, h.carcass, h.side, u32::from(h.status)] {
        print_number(field as u64);
    }
}

// N record A plant carcass side status, the checksum of data
fn record_of(case: u64, book: &[u8], data: &[u8]) {
    let read = coding::read_record(book, data);
    begin(case, b" record");
    print_outcome(read.map(|_| ()));
    print_record(read.unwrap_or_default());
    print_number(sum(data));
    end_line();
}

pub fn record_case(case: u64, book: &[u8]) {
    let mut fields = [0u8; 2];
    next(&mut fields);
    let mut data = [0u8; 513];
    let given = lend(&mut data, two(&fields, 0) as usize);
    next(given);
    record_of(case, book, given);
}
