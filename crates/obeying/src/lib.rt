// One command of a code book is judged and obeyed, after those before it: document 01, "The code book" and "Refusal table". Relies on the crates
// numerals and codebook; codebook/specs/Progress says what the numbers and tables stand for.

#![tactic(auto)]

ghost use Rattle.std.specs.Prelude.{◌≡◌, true, false, ◌+◌, ◌^◌, ◌<◌, ◌≤◌, ◌==◌, IsTrue, count_by, length};
ghost use Rattle.codebook.specs.Progress.{is_end, stands, Grows, Obeys, run_command, block_fits};

use codebook::{Command, FREE, Progress, Refusal, Step, TIED, Tables, ZERO};
use numerals::word_power;

// Whether a command may stand here. A term belongs to the tie before it; else the length comes first, then index commands until all indices are
// filled, then block commands until all are covered, then the end.
#[tactic(auto, using(std::proofs::lemmas::Bool::Decides::nat_tests), unfolding(codebook::specs::Progress::stands))]
fn stands(p: Progress, c: Command) -> bool
    ensures { result ≡ stands p c }
{
    match c {
        Command::Length(_) => p.m == 0,
        Command::Free(_) | Command::Zero(_) | Command::Tie(_) => p.filled < p.n,
        Command::Term(_) => p.tying,
        Command::Block(_, _) => p.filled == p.n && p.covered < p.n,
        Command::End => p.m != 0 && p.covered == p.n,
    }
}

// The length.
#[tactic(auto, unfolding(codebook::specs::Progress::Settled, codebook::specs::Loading::fault, codebook::specs::Refusals::unless))]
fn begin(p: Progress, m: u32, tables: &mut Tables) -> Result<Progress, Refusal>
    requires { p.m ≡ 0 }
    ensures { Grows p (Command.Length m) tables.old tables.new result }
{
    if m < 2 {
        return Err(Refusal::OutOfRange);
    }
    if 9 < m {
        return Err(Refusal::OutOfRange);
    }
    let n = word_power(m);
    tables.terms[..n as usize].fill(0);
    Ok(Progress {
        m,
        n,
        filled: 0,
        ties: 0,
        tying: false,
        free: 0,
        blocks: 0,
        covered: 0,
    })
}

// The next indices, as many as the count says, have this code: that of a free index or of a zero one.
fn run(p: Progress, count: u32, code: u8, tables: &mut Tables) -> Result<Progress, Refusal>
    requires { (p.filled < p.n) × (code < 2) }
    ensures { Grows p (run_command code count) tables.old tables.new result }
{
    if count < 1 || p.n - p.filled < count {
        return Err(Refusal::OutOfRange);
    }
    let filled = p.filled + count;
    tables.kinds[p.filled as usize..filled as usize].fill(code);
    let mut q = p;
    q.filled = filled;
    q.tying = false;
    Ok(q)
}

// The next index is tied to index i.
#[tactic(auto, unfolding(codebook::specs::Progress::Settled, codebook::specs::Loading::fault, codebook::specs::Refusals::unless))]
fn tie(p: Progress, i: u32, tables: &mut Tables) -> Result<Progress, Refusal>
    requires { p.filled < p.n }
    ensures { Grows p (Command.Tie i) tables.old tables.new result }
{
    if p.filled <= i {
        return Err(Refusal::OutOfRange);
    }
    if 32 <= p.ties {
        return Err(Refusal::TooManyTied);
    }
    let at = p.filled as usize;
    tables.kinds[at] = TIED + p.ties as u8;
    tables.terms[i as usize] |= word_power(p.ties);
    let mut q = p;
    q.filled = p.filled + 1;
    q.ties = p.ties + 1;
    q.tying = true;
    Ok(q)
}

// One more term of the last tie. That tie's bit is the highest that any set holds yet, so a set below it does not hold it.
fn term(p: Progress, i: u32, tables: &mut Tables) -> Result<Progress, Refusal>
    requires { p.tying ≡ true }
    ensures { Grows p (Command.Term i) tables.old tables.new result }
{
    if p.filled.saturating_sub(i) <= 1 {
        return Err(Refusal::OutOfRange);
    }
    let bit = word_power(p.ties - 1);
    if bit <= tables.terms[i as usize] {
        return Err(Refusal::OutOfRange);
    }
    tables.terms[i as usize] |= bit;
    Ok(p)
}

// Whether a block of length 2^j may start at an index, and its bias is in range.
fn fits(covered: u32, n: u32, j: u32, bias: i32) -> bool
    requires { (covered ≤ n) × (n ≤ 512) }
    ensures value { result ≡ block_fits covered n j bias }
    ensures within { IsTrue result → (j ≤ 5) × (covered + 2 ^ j ≤ n) }
{
    if 5 < j {
        return false;
    }
    let length = word_power(j);
    covered % length == 0 && covered + length <= n && bias.unsigned_abs() <= 1048576
}

// How many of these codes are those of free indices.
fn count_free(kinds: &[u8]) -> u32
    requires { length kinds.now ≤ 512 }
    ensures { result ≡ count_by (λ kind. kind == FREE) kinds.now }
{
    let mut free = 0;
    for kind in kinds {
        if *kind == FREE {
            free += 1;
        }
    }
    free
}

// The next block, at the first index that is in none.
fn block(p: Progress, j: u32, bias: i32, tables: &mut Tables) -> Result<Progress, Refusal>
    requires { (p.filled ≡ p.n) × (p.covered < p.n) }
    ensures { Grows p (Command.Block j bias) tables.old tables.new result }
{
    if !fits(p.covered, p.n, j, bias) {
        return Err(Refusal::OutOfRange);
    }
    let end = p.covered + word_power(j);
    let free = count_free(&tables.kinds[p.covered as usize..end as usize]);
    let light = free <= 8;
    if !light {
        return Err(Refusal::TooManyFree);
    }
    let b = p.blocks as usize;
    tables.heights[b] = j as u8;
    tables.starts[b] = p.covered as u16;
    tables.biases[b] = bias;
    let mut q = p;
    q.tying = false;
    q.blocks = p.blocks + 1;
    q.covered = end;
    q.free = p.free + free;
    Ok(q)
}

// A command that may stand here, with all its operands, and is not the end.
fn grow(c: Command, p: Progress, tables: &mut Tables) -> Result<Progress, Refusal>
    requires { (stands p c ≡ true) × (is_end c ≡ false) }
    ensures { Grows p c tables.old tables.new result }
{
    if let Command::Free(count) = c {
        return run(p, count, FREE, tables);
    }
    if let Command::Zero(count) = c {
        return run(p, count, ZERO, tables);
    }
    if let Command::Term(i) = c {
        return term(p, i, tables);
    }
    if p.m == 0 {
        let Command::Length(m) = c else {
            return Err(Refusal::Misplaced);
        };
        return begin(p, m, tables);
    }
    if p.filled < p.n {
        let Command::Tie(i) = c else {
            return Err(Refusal::Misplaced);
        };
        return tie(p, i, tables);
    }
    let Command::Block(j, bias) = c else {
        return Err(Refusal::Misplaced);
    };
    block(p, j, bias, tables)
}

// A command after those before it, its operands whole or cut; the end has none.
pub fn obey(c: Command, whole: bool, p: Progress, tables: &mut Tables) -> Result<Step, Refusal>
    ensures { Obeys p c whole tables.old tables.new result }
{
    if !stands(p, c) {
        return Err(Refusal::Misplaced);
    }
    if let Command::End = c {
        return Ok(Step::End(p));
    }
    if !whole {
        return Err(Refusal::Truncated);
    }
    Ok(Step::Next(grow(c, p, tables)?))
}
