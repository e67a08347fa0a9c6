// A decoding call by the reader's run: the book is loaded, the call is admitted or refused, the run is made, its word is judged, and handed out where no verdict is against it. Relies
// on ran.rt, verdict.rt and the crates loading, coding and checks; machine/specs/Calls says what a call answers and leaves.
ghost use Rattle.std.specs.Prelude.{◌≡◌, ◌≤◌, T, length, Err};
ghost use Rattle.settings.specs.Settings.{Ranged};
ghost use Rattle.codec.specs.Record.{no_record};
ghost use Rattle.machine.specs.Calls.{given, lent_in, SameOutput, SameWorkspace, SameWalk, numbers_needed, bytes_needed, walk_needed, holds, ran_call, call_by};
ghost use Rattle.attempts.specs.Reading.{reader_run};
ghost use Rattle.attempts.specs.Attempt.{Ready};

use crate::ran::run_cleared;
use crate::verdict::{give, judge};
use checks::admission::admit;
use codebook::{Refusal, Shape, Tables};
use codec::HookRecord;
use coding::data_of;
use loading::load_tables;
use machine::{Counts, HookDecoded, Lengths, Manner, Output, Reads, Walk, Workspace};
use settings::Settings;

// The answer of a refusal, with these counts.
fn refused(r: Refusal, counts: Counts) -> HookDecoded
    ensures { result ≡ record { outcome = Err r; counts = counts; hook = no_record } }
{
    HookDecoded {
        outcome: Err(r),
        counts,
        hook: HookRecord::default(),
    }
}

// An admitted call: the run on the stated part of the workspace, the data of its word, the verdict, and what is handed out.
fn decide(
    r: Reads,
    x: Shape,
    s: Settings,
    values: &[i16],
    tables: &Tables,
    out: &mut Output,
    workspace: &mut Workspace,
    walk: &mut Walk,
) -> HookDecoded
    requires ranged { Ranged s × T (holds r x) × (length out.old.word.now ≡ x.n) × (length out.old.bits.now ≡ x.k) }
    requires workspace_needed { (numbers_needed x s ≤ length workspace.old.numbers.now) × (bytes_needed x s ≤ length workspace.old.bytes.now) }
    requires walk_needed { (walk_needed x s ≤ length walk.old.path.now) × (walk_needed x s ≤ length walk.old.blocks.now) × (walk_needed x s ≤ length walk.old.score.now) }
    requires ready { Ready x values.now tables.now }
    ensures called { (c : Ready x values.now tables.now)
        → (let l = lent_in out.old workspace.old walk.old in
        let w = ran_call r x s l (reader_run c.book s values.now l) in
        (result ≡ w.answer) × (lent_in out.new workspace.new walk.new ≡ w.lent)) }
    ensures same { SameOutput out.new out.old × SameWorkspace workspace.new workspace.old × SameWalk walk.new walk.old }
{
    let n = x.n as usize;
    let k = x.k as usize;
    let most = s.paths as usize;
    let size = most * (2 * n + 32);
    let room = most * (2 * n);
    let numbers = &mut *workspace.numbers;
    let bytes = &mut *workspace.bytes;
    let mut found = [0u8; 512];
    let mut info = [0u8; 512];
    let mut u = [0u8; 512];
    let word = &mut found[..n];
    let bits = &mut info[..k];
    let counts = run_cleared(
        x,
        s,
        values,
        tables,
        &mut numbers[..size],
        &mut bytes[..room],
        walk,
        word,
    );
    data_of(tables, x.m, word, &mut u[..n], bits);
    let read = judge(r, s, counts.discrepancy, bits);
    give(&read, word, bits, out);
    match read {
        Ok(hook) => HookDecoded {
            outcome: Ok(()),
            counts,
            hook,
        },
        Err(against) => refused(against, counts),
    }
}

// A call in this manner: loaded, tested, run, judged, handed out. The run is the reader's on the workspace lent (specs/Reading).
pub fn attempt(
    k: Manner,
    book: &[u8],
    asked: Settings,
    values: &[i16],
    out: &mut Output,
    workspace: &mut Workspace,
    walk: &mut Walk,
) -> HookDecoded
    ensures called { let w = call_by reader_run k (given book.now asked values.now) (lent_in out.old workspace.old walk.old) in
        (result ≡ w.answer) × (lent_in out.new workspace.new walk.new ≡ w.lent) }
    ensures same { SameOutput out.new out.old × SameWorkspace workspace.new workspace.old × SameWalk walk.new walk.old }
{
    let mut tables = Tables::empty();
    let x = match load_tables(book, &mut tables) {
        Ok(x) => x,
        Err(r) => return refused(r, Counts::default()),
    };
    let l = Lengths {
        values: values.len(),
        word: out.word.len(),
        bits: out.bits.len(),
        numbers: workspace.numbers.len(),
        bytes: workspace.bytes.len(),
        paths: walk.path.len(),
        blocks: walk.blocks.len(),
        scores: walk.score.len(),
    };
    match admit(k, x, asked, l, values) {
        Ok(s) => decide(k.reads, x, s, values, &tables, out, workspace, walk),
        Err(r) => refused(r, Counts::default()),
    }
}
