// The cases of encode, test and read data. Each reads its fields from the stream. Relies on stream.rt, buffers.rt, lines.rt and the crates coding and numerals.
use crate::buffers::{fill, lend, sum};
use crate::lines::{begin, end_line, print_bits, print_number, print_outcome};
use crate::stream::next;
use codebook::Refusal;
use numerals::two;
use text::print_words;

// N encode A WORD, the checksums of data and word
fn encode_into(case: u64, book: &[u8], data: &[u8], word: &mut [u8]) {
    fill(word);
    let outcome = coding::encode(book, data, word);
    begin(case, b" encode");
    print_outcome(outcome);
    print_bits(outcome, word);
    print_number(sum(data));
    print_number(sum(word));
    end_line();
}

pub fn encode_case(case: u64, book: &[u8]) {
    let mut fields = [0u8; 4];
    next(&mut fields);
    let mut data = [0u8; 513];
    let given = lend(&mut data, two(&fields, 2) as usize);
    next(given);
    let mut word = [0u8; 513];
    let lent = lend(&mut word, two(&fields, 0) as usize);
    encode_into(case, book, given, lent);
}

fn print_tested(tested: Result<bool, Refusal>) {
    match tested {
        Ok(true) => print_words(b" 0 yes"),
        Ok(false) => print_words(b" 0 no"),
        Err(r) => {
            print_number(u32::from(r) as u64);
            print_words(b" -");
        }
    }
}

// N test A yes, no or -, the checksum of word
fn test_word(case: u64, book: &[u8], word: &[u8]) {
    begin(case, b" test");
    print_tested(coding::test(book, word));
    print_number(sum(word));
    end_line();
}

pub fn test_case(case: u64, book: &[u8]) {
    let mut fields = [0u8; 2];
    next(&mut fields);
    let mut word = [0u8; 513];
    let given = lend(&mut word, two(&fields, 0) as usize);
    next(given);
    test_word(case, book, given);
}

// N read A DATA, the checksums of word and data
fn read_into(case: u64, book: &[u8], word: &[u8], data: &mut [u8]) {
    fill(data);
    let outcome = coding::read_data(book, word, data);
    begin(case, b" read");
    print_outcome(outcome);
    print_bits(outcome, data);
    print_number(sum(word));
    print_number(sum(data));
    end_line();
}

pub fn read_case(case: u64, book: &[u8]) {
    let mut fields = [0u8; 4];
    next(&mut fields);
    let mut word = [0u8; 513];
    let given = lend(&mut word, two(&fields, 2) as usize);
    next(given);
    let mut data = [0u8; 513];
    let lent = lend(&mut data, two(&fields, 0) as usize);
    read_into(case, book, given, lent);
}
