// The code book: its types, and the numbers of refusals. specs/Refusals.antt gives document 01's number and word for each refusal; specs/Loading.antt
// says what loading is, specs/Tables.antt what the loader (the crate loading) fills.

#![tactic(auto)]

ghost use Rattle.std.specs.Prelude.{◌≡◌, ◌<◌, ◌≤◌, IsTrue};

// Why a call is refused: document 01, "Refusal table".
#[derive(Clone, Copy, Debug, PartialEq, Eq)]
pub enum Refusal {
    // 1, short: the book ends in a command, or where one is due.
    Truncated,
    // 2, strange: a command byte that is not listed.
    Unknown,
    // 3, misplaced: a listed command where it may not stand, or bytes after the end.
    Misplaced,
    // 4, off range: an operand outside its range, a count of 0, or past n.
    OutOfRange,
    // 5, overtied: a 33rd tied index.
    TooManyTied,
    // 6, heavy: a block with over 8 free indices.
    TooManyFree,
    // 7, misfit: a lent length is wrong, or k is not 32 for a record.
    Mismatch,
    // 8, bad setting: L, D or T out of range.
    BadSetting,
    // 9, bad value: a soft value, a bit or a record's field out of range.
    BadValue,
    // 10, faint: the discrepancy is above T.
    AboveLimit,
    // 11, unreadable: a status of 5 to 7, or a spare bit that is 1.
    Unreadable,
}

// Whether a call did what it is for.
pub type Outcome = Result<(), Refusal>;

// A command of a code book with its operands: document 01, "The code book".
#[derive(Clone, Copy, Debug, PartialEq, Eq)]
pub enum Command {
    // 10: the length is 2^m.
    Length(u32),
    // 01, 02: the next indices, as many as the count says, are free or zero.
    Free(u32),
    Zero(u32),
    // 03, 04: the next index is tied to this one; one more term of that tie.
    Tie(u32),
    Term(u32),
    // 05: the next block has length 2^j and this bias.
    Block(u32, i32),
    // 7F: the end.
    End,
}

// A loaded book's m, its length n = 2^m, its number of free indices k and its number of blocks V.
#[derive(Clone, Copy, Debug, PartialEq, Eq)]
pub struct Shape {
    pub m: u32,
    pub n: u32,
    pub k: u32,
    pub blocks: u32,
}

// The codes of the kinds of indices: free, zero, and the first tie, the next ones following.
pub const FREE: u8 = 0;

pub const ZERO: u8 = 1;

pub const TIED: u8 = 2;

// What the loader fills: of each index the code of its kind and the set of the ties that it is a term of; of each block its j, its first index and its
// bias. specs/Tables.antt says what they are for a book.
#[derive(Drop)]
pub struct Tables {
    pub kinds: [u8; 512],
    pub terms: [u32; 512],
    pub heights: [u8; 512],
    pub starts: [u16; 512],
    pub biases: [i32; 512],
}

impl Tables {
    ghost use Rattle.codebook.specs.Tables.{empty};

    // Tables that nothing is loaded into yet.
    pub fn empty() -> Tables
        ensures { result ≡ empty }
    {
        Tables {
            kinds: [0; 512],
            terms: [0; 512],
            heights: [0; 512],
            starts: [0; 512],
            biases: [0; 512],
        }
    }
}

// A listed command that is found at a place of a code book, the place after it, and whether its operands are whole: where the book ends in
// them, they are read as 0.
#[derive(Clone, Copy, Debug, PartialEq, Eq)]
pub struct Found {
    pub command: Command,
    pub next: usize,
    pub whole: bool,
}

// How far a code book is loaded: m and n, 0 before the length; the indices filled, the ties among them, and whether the last command was a
// tie or a term; the blocks, the indices in them, and the free ones of these.
#[derive(Clone, Copy, Debug, PartialEq, Eq)]
pub struct Progress {
    pub m: u32,
    pub n: u32,
    pub filled: u32,
    pub ties: u32,
    pub tying: bool,
    pub free: u32,
    pub blocks: u32,
    pub covered: u32,
    // All of them keep within the tables, and a tie or a term belongs to a tie.
    pub ghost small: { n ≤ 512 },
    pub ghost within: { filled ≤ n },
    pub ghost few: { ties ≤ 32 },
    pub ghost tie: { IsTrue tying → 0 < ties },
    pub ghost room: { blocks ≤ covered },
    pub ghost reach: { covered ≤ n },
    pub ghost most: { free ≤ covered },
}

impl Progress {
    ghost use Rattle.codebook.specs.Progress.{Begun};

    // Nothing is loaded yet.
    pub fn start() -> Progress
        ensures { Begun 0 0 result }
    {
        Progress {
            m: 0,
            n: 0,
            filled: 0,
            ties: 0,
            tying: false,
            free: 0,
            blocks: 0,
            covered: 0,
        }
    }
}

// What one command that is not refused comes to.
#[derive(Clone, Copy, Debug, PartialEq, Eq)]
pub enum Step {
    Next(Progress),
    // The end command.
    End(Progress),
}

mod numbers;

pub use numbers::outcome_number;
