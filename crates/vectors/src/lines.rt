// Lines of the output. A line begins with its case and a name; each field comes after one space. Relies on the crate text.
use codebook::{Outcome, outcome_number};
use text::print_words;

// The start of a line: the case, and the name with a space before it.
pub fn begin(case: u64, name: &[u8]) {
    text::print_number(case);
    print_words(name);
}

pub fn end_line() {
    print_words(b"\n");
}

pub fn print_number(n: u64) {
    print_words(b" ");
    text::print_number(n);
}

pub fn print_signed(x: i32) {
    print_words(b" ");
    text::print_signed(x);
}

// What a call answers, as its number.
pub fn print_outcome(outcome: Outcome) {
    print_number(outcome_number(outcome) as u64);
}

// Bits as digits: "-" after a refusal, and where there are none.
pub fn print_bits(outcome: Outcome, bits: &[u8]) {
    print_words(b" ");
    if outcome.is_err() || bits.is_empty() {
        print_words(b"-");
    } else {
        text::print_bits(bits);
    }
}
