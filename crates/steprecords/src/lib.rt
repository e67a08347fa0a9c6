// Step records: number buffers copied into a slice of them, and one entry of the buffers as a record. Relies on no other file; specs/Records.antt says what is
// copied.

#![tactic(auto)]

ghost use Rattle.std.specs.Prelude.{◌≡◌, cond, ◌≤◌, ltb, length};
ghost use Rattle.steprecords.specs.Records.{blank, record_at, copied};

// One extraction as the screen shows it: the path taken, its blocks and its score.
#[derive(Clone, Copy, Default)]
pub struct StepRecord {
    pub path: i32,
    pub blocks: i32,
    pub score: i32,
}

// The first n entries of the walk's buffers, as records.
pub fn copy_steps(steps: &mut [StepRecord], paths: &[i32], blocks: &[i32], scores: &[i32], n: usize)
    requires { (n ≤ length steps.old) × (n ≤ length paths.now) × (n ≤ length blocks.now) × (n ≤ length scores.now) }
    ensures { steps.new ≡ copied steps.old paths.now blocks.now scores.now n }
{
    for (i, step) in steps[..n].iter_mut().enumerate() {
        *step = StepRecord {
            path: paths[i],
            blocks: blocks[i],
            score: scores[i],
        };
    }
}

// Entry i of the first n of the walk's buffers as a record, zeros where i is n or more.
#[tactic(auto, using(crate::proofs::Entries::none_made))]
pub fn record_at(paths: &[i32], blocks: &[i32], scores: &[i32], n: usize, i: usize) -> StepRecord
    requires { (n ≤ length paths.now) × (n ≤ length blocks.now) × (n ≤ length scores.now) }
    ensures { result ≡ cond (ltb i n) (record_at paths.now blocks.now scores.now i) blank }
{
    if i < n {
        StepRecord {
            path: paths[i],
            blocks: blocks[i],
            score: scores[i],
        }
    } else {
        StepRecord::default()
    }
}
