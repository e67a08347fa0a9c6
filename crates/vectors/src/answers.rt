// Printing what a decoding call answers and leaves in the lent buffers. Relies on buffers.rt, lines.rt and records.rt.
use crate::buffers::sum;
use crate::lines::{begin, end_line, print_bits, print_number, print_outcome, print_signed};
use crate::records::print_record;
use codebook::Outcome;
use codec::HookRecord;
use machine::{Counts, Output, Walk, Workspace};

// What a decoding call answers: the record where it is the hook call.
#[derive(Clone, Copy)]
pub struct Answer {
    pub outcome: Outcome,
    pub counts: Counts,
    pub hook: Option<HookRecord>,
}

// N plain A extractions crowded outrun discrepancy; N hook .., plant carcass side status
pub fn print_answer(case: u64, a: Answer) {
    begin(
        case,
        if a.hook.is_some() {
            b" hook"
        } else {
            b" plain"
        },
    );
    print_outcome(a.outcome);
    print_number(a.counts.extractions as u64);
    print_number(a.counts.crowded as u64);
    print_number(a.counts.outrun as u64);
    print_number(a.counts.discrepancy as u64);
    if let Some(h) = a.hook {
        print_record(h);
    }
    end_line();
}

fn print_entry(walk: &[i32], i: usize) {
    if let Some(entry) = walk.get(i) {
        print_signed(*entry);
    }
}

// N walk, and of the first 48 extractions path, blocks and score
pub fn print_walk(case: u64, extractions: u32, walk: &Walk) {
    begin(case, b" walk");
    for i in 0..(extractions as usize).min(48) {
        print_entry(walk.path, i);
        print_entry(walk.blocks, i);
        print_entry(walk.score, i);
    }
    end_line();
}

// N word WORD DATA
pub fn print_word(case: u64, outcome: Outcome, out: &Output) {
    begin(case, b" word");
    print_bits(outcome, out.word);
    print_bits(outcome, out.bits);
    end_line();
}

// N sums, and the checksums of values, word, data, numbers, bytes and the walk
pub fn print_sums(case: u64, values: &[i16], out: &Output, workspace: &Workspace, walk: &Walk) {
    begin(case, b" sums");
    print_number(sum(values));
    print_number(sum(out.word));
    print_number(sum(out.bits));
    print_number(sum(workspace.numbers));
    print_number(sum(workspace.bytes));
    print_number(sum(walk.path));
    print_number(sum(walk.blocks));
    print_number(sum(walk.score));
    end_line();
}
