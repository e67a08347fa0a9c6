// Words and their data: encoding, testing and reading, with a number as the answer. Relies on the crates answers and coding, whose calls these are.
ghost use Rattle.std.specs.Prelude.{◌≡◌};
ghost use Rattle.codebook.specs.Refusals.{outcome_number};
ghost use Rattle.codec.specs.Calls.{encode_call, test_call, read_data_call};
ghost use Rattle.codec.specs.Numbers.{tested_number};

use answers::tested_number;
use codebook::outcome_number;
use coding::{encode, read_data, test};

// Encodes data bits into a lent word.
pub fn encode_number(book: &[u8], bits: &[u8], word: &mut [u8]) -> u32
    ensures { let w = encode_call book.now bits.now word.old in
        (result ≡ outcome_number w.outcome) × (word.new ≡ w.buffer) }
{
    outcome_number(encode(book, bits, word))
}

// Tests a word.
pub fn test_number(book: &[u8], word: &[u8]) -> u32
    ensures { result ≡ tested_number (test_call book.now word.now) }
{
    tested_number(test(book, word))
}

// Reads the data bits of a word into lent data.
pub fn read_data_number(book: &[u8], word: &[u8], bits: &mut [u8]) -> u32
    ensures { let w = read_data_call book.now word.now bits.old in
        (result ≡ outcome_number w.outcome) × (bits.new ≡ w.buffer) }
{
    outcome_number(read_data(book, word, bits))
}
