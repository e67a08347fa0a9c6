// The cases of the decoding calls. Each reads its fields from the stream. Relies on stream.rt, buffers.rt, answers.rt and the crates decoder and numerals.
use crate::answers::{Answer, print_answer, print_sums, print_walk, print_word};
use crate::buffers::{Buffers, fill, lend};
use crate::stream::{next, next_values};
use machine::{Lengths, Output, Reads, Walk, Workspace};
use numerals::{four, two};
use settings::Settings;

// A case's fields: the settings, and the lengths of the values and of the lent buffers.
#[derive(Clone, Copy)]
struct Fields {
    settings: Settings,
    lengths: Lengths,
}

// The next fields.
fn next_fields() -> Fields {
    let mut b = [0u8; 34];
    next(&mut b);
    Fields {
        settings: Settings {
            visits: two(&b, 0),
            paths: two(&b, 2),
            limit: four(&b, 4),
        },
        lengths: Lengths {
            values: two(&b, 32) as usize,
            word: two(&b, 8) as usize,
            bits: two(&b, 10) as usize,
            numbers: four(&b, 12) as usize,
            bytes: four(&b, 16) as usize,
            paths: four(&b, 20) as usize,
            blocks: four(&b, 24) as usize,
            scores: four(&b, 28) as usize,
        },
    }
}

// The call that reads data or the record.
fn decode(
    reads: Reads,
    book: &[u8],
    settings: Settings,
    values: &[i16],
    out: &mut Output,
    workspace: &mut Workspace,
    walk: &mut Walk,
) -> Answer {
    match reads {
        Reads::Data => {
            let r = decoder::decode(book, settings, values, out, workspace, walk);
            Answer {
                outcome: r.outcome,
                counts: r.counts,
                hook: None,
            }
        }
        Reads::Record => {
            let r = decoder::decode_hook(book, settings, values, out, workspace, walk);
            Answer {
                outcome: r.outcome,
                counts: r.counts,
                hook: Some(r.hook),
            }
        }
    }
}

// A case on buffers of the lengths that it asks for, with garbage in each: its four lines.
fn decode_on(
    case: u64,
    reads: Reads,
    book: &[u8],
    settings: Settings,
    values: &[i16],
    out: &mut Output,
    workspace: &mut Workspace,
    walk: &mut Walk,
) {
    fill(&mut *out.word);
    fill(&mut *out.bits);
    fill(&mut *workspace.numbers);
    fill(&mut *workspace.bytes);
    fill(&mut *walk.path);
    fill(&mut *walk.blocks);
    fill(&mut *walk.score);
    let a = decode(reads, book, settings, values, out, workspace, walk);
    print_answer(case, a);
    print_walk(case, a.counts.extractions, walk);
    print_word(case, a.outcome, out);
    print_sums(case, values, out, workspace, walk);
}

pub fn decode_case(case: u64, reads: Reads, book: &[u8], buffers: &mut Buffers) {
    let f = next_fields();
    let n = f.lengths;
    let mut values = [0i16; 513];
    let given = lend(&mut values, n.values);
    next_values(given);
    let mut word = [0u8; 513];
    let mut bits = [0u8; 513];
    let mut out = Output {
        word: lend(&mut word, n.word),
        bits: lend(&mut bits, n.bits),
    };
    let mut workspace = Workspace {
        numbers: lend(&mut buffers.numbers, n.numbers),
        bytes: lend(&mut buffers.bytes, n.bytes),
    };
    let mut walk = Walk {
        path: lend(&mut buffers.path, n.paths),
        blocks: lend(&mut buffers.blocks, n.blocks),
        score: lend(&mut buffers.score, n.scores),
    };
    decode_on(
        case,
        reads,
        book,
        f.settings,
        given,
        &mut out,
        &mut workspace,
        &mut walk,
    );
}
