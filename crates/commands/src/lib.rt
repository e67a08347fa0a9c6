// A command of a code book is read: document 01, "The code book". Relies on the crates numerals and codebook; codebook/specs/Loading says what the bytes mean.

#![tactic(auto)]

ghost use Rattle.std.specs.Prelude.{◌≡◌, ◌*◌, ◌^◌, ◌<◌, ◌≤◌, length, IsTrue, SomeIff};
ghost use Rattle.codebook.specs.Loading.{listed, width, big_endian, command};
ghost use Rattle.codebook.specs.Progress.{read_at};

use codebook::{Command, Found};
use numerals::number;

// How many bytes of operands follow a byte, if it is a listed command byte.
#[tactic(auto, using(std::proofs::lemmas::Bool::Decides::nat_tests), unfolding(codebook::specs::Loading::listed, codebook::specs::Loading::width))]
fn width_of(byte: u8) -> Option<usize>
    ensures { SomeIff result (IsTrue (listed byte)) (width byte) }
{
    match byte {
        0x10 => Some(1),
        0x01..=0x04 => Some(2),
        0x05 => Some(5),
        0x7f => Some(0),
        _ => None,
    }
}

// The number that these bytes make. Where they are as many as a command of this kind has, which they are unless they are cut off, their number is known
// to the compiler, and no loop goes by it.
fn operand<const N: usize>(bytes: &[u8]) -> u32
    requires { (N ≤ 4) × (length bytes.now ≤ 4) }
    ensures value { result ≡ big_endian 0 bytes.now }
    ensures bound { result < 2 ^ (8 * length bytes.now) }
{
    match bytes.as_array::<N>() {
        Some(whole) => number(whole),
        None => number(bytes),
    }
}

// The command that a listed byte and its operands make; without them, they are taken to be 0.
#[tactic(auto, using(std::proofs::lemmas::Bool::Decides::nat_tests), unfolding(codebook::specs::Loading::command, codebook::specs::Loading::width))]
fn command_of(byte: u8, operands: &[u8]) -> Command
    requires { length operands.now ≤ width byte }
    ensures { result ≡ command byte operands.now }
{
    match byte {
        0x10 => Command::Length(operand::<1>(operands)),
        0x01 => Command::Free(operand::<2>(operands)),
        0x02 => Command::Zero(operand::<2>(operands)),
        0x03 => Command::Tie(operand::<2>(operands)),
        0x04 => Command::Term(operand::<2>(operands)),
        0x05 => {
            let (j, bias) = operands.split_at(operands.len().min(1));
            Command::Block(operand::<1>(j), operand::<4>(bias).cast_signed())
        }
        _ => Command::End,
    }
}

// The listed command at a place within the book.
pub fn read_command(book: &[u8], at: usize) -> Option<Found>
    requires { at < length book.now }
    ensures { result ≡ read_at book.now at }
{
    let byte = book[at];
    let width = width_of(byte)?;
    let start = at + 1;
    if book.len() - start < width {
        let command = command_of(byte, &[]);
        return Some(Found {
            command,
            next: start,
            whole: false,
        });
    }
    let next = start + width;
    let command = command_of(byte, &book[start..next]);
    Some(Found {
        command,
        next,
        whole: true,
    })
}
