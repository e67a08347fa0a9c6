// The calls: encode, test, read data, make record, read record. Each takes a book's bytes, which are loaded first; then lengths, then values are
// tested, and a lent buffer is written on success alone. Relies on the crates loading, filling and hooks and on polar's transform; codec/specs/Calls
// says what each call answers, codec/specs/Numbers its number in document 01, codec/specs/Testing what a test means by encoding.

#![tactic(auto)]

ghost use Rattle.std.specs.Prelude.{◌≡◌, List, ◌^◌, length};
ghost use Rattle.laws.specs.Lists.{All};
ghost use Rattle.polar.specs.Bits.{Bit};
ghost use Rattle.polar.specs.Transform.{transform};
ghost use Rattle.codebook.specs.Refusals.{outcome_number};
ghost use Rattle.codebook.specs.Book.{Kind, free_count};
ghost use Rattle.codec.specs.Code.{free_bits, obeys_all};
ghost use Rattle.codec.specs.Tabled.{Coded, Tabled, Some};
ghost use Rattle.codec.specs.Calls.{encode_call, test_call, read_data_call, make_record_call, read_record_call};
ghost use Rattle.codec.specs.Numbers.{tested_number, encode_number, test_number, read_data_number, make_record_number, read_record_number};
ghost use Rattle.codec.specs.Testing.{TestedExactly};

use codebook::{Outcome, Refusal, Tables};
use codec::HookRecord;
use filling::{fill, free_bits, obeys_all};
use hooks::{are_bits, put_record, record_fits, record_of};
use loading::{load, load_tables};
use polar::butterfly::transform;

// Encodes data bits into a lent word.
pub fn encode(book: &[u8], bits: &[u8], word: &mut [u8]) -> Outcome
    ensures fact { let w = encode_call book.now bits.now word.old in
        (result ≡ w.outcome) × (word.new ≡ w.buffer) }
    ensures number { outcome_number result ≡ encode_number book.now bits.now word.old }
{
    let mut tables = Tables::empty();
    let x = load_tables(book, &mut tables)?;
    if bits.len() != x.k as usize || word.len() != x.n as usize {
        return Err(Refusal::Mismatch);
    }
    if !are_bits(bits) {
        return Err(Refusal::BadValue);
    }
    fill(&tables, bits, word);
    transform(word, x.m);
    Ok(())
}

// Whether a word is in the code: u is scratch.
fn in_code(tables: &Tables, m: u32, word: &[u8], u: &mut [u8]) -> bool
    requires some { Some (λ ks. Tabled ks tables.now.kinds tables.now.terms × (length ks ≡ length word.now)) }
    requires word_len { (length word.now ≡ length u.old) × (length word.now ≡ 2 ^ m) × All Bit word.now }
    ensures { (ks : List Kind) → Tabled ks tables.now.kinds tables.now.terms → length ks ≡ length word.now →
        result ≡ obeys_all (transform m word.now) 0 ks }
{
    u.copy_from_slice(word);
    transform(u, m);
    obeys_all(tables, u)
}

// Tests whether a word is in the code.
pub fn test(book: &[u8], word: &[u8]) -> Result<bool, Refusal>
    ensures value { result ≡ test_call book.now word.now }
    ensures number { tested_number result ≡ test_number book.now word.now }
    ensures exactly { TestedExactly book.now word.now result }
{
    let mut tables = Tables::empty();
    let x = load_tables(book, &mut tables)?;
    let n = x.n as usize;
    if word.len() != n {
        return Err(Refusal::Mismatch);
    }
    if !are_bits(word) {
        return Err(Refusal::BadValue);
    }
    let mut u = [0u8; 512];
    Ok(in_code(&tables, x.m, word, &mut u[..n]))
}

// The data bits of a word: u becomes the input bits that the word comes from.
pub fn data_of(tables: &Tables, m: u32, word: &[u8], u: &mut [u8], bits: &mut [u8])
    requires some { Some (λ ks. Coded ks tables.now.kinds × (length ks ≡ length word.now) × (free_count ks ≡ length bits.old)) }
    requires word_len { (length word.now ≡ length u.old) × (length word.now ≡ 2 ^ m) × All Bit word.now }
    ensures bits_after { (ks : List Kind) → Coded ks tables.now.kinds → length ks ≡ length word.now →
        free_count ks ≡ length bits.old → bits.new ≡ free_bits ks (transform m word.now) }
    ensures u_after { u.new ≡ transform m word.now }
{
    u.copy_from_slice(word);
    transform(u, m);
    free_bits(tables, u, bits);
}

// Reads the data bits of a word, also of one outside the code, into lent bits.
pub fn read_data(book: &[u8], word: &[u8], bits: &mut [u8]) -> Outcome
    ensures fact { let w = read_data_call book.now word.now bits.old in
        (result ≡ w.outcome) × (bits.new ≡ w.buffer) }
    ensures number { outcome_number result ≡ read_data_number book.now word.now bits.old }
{
    let mut tables = Tables::empty();
    let x = load_tables(book, &mut tables)?;
    let n = x.n as usize;
    if word.len() != n || bits.len() != x.k as usize {
        return Err(Refusal::Mismatch);
    }
    if !are_bits(word) {
        return Err(Refusal::BadValue);
    }
    let mut u = [0u8; 512];
    data_of(&tables, x.m, word, &mut u[..n], bits);
    Ok(())
}

// Makes a record into lent data bits.
pub fn make_record(book: &[u8], h: HookRecord, bits: &mut [u8]) -> Outcome
    ensures fact { let w = make_record_call book.now h bits.old in
        (result ≡ w.outcome) × (bits.new ≡ w.buffer) }
    ensures number { outcome_number result ≡ make_record_number book.now h bits.old }
{
    let x = load(book)?;
    if x.k != 32 || bits.len() != 32 {
        return Err(Refusal::Mismatch);
    }
    if !record_fits(h) {
        return Err(Refusal::BadValue);
    }
    put_record(bits, h);
    Ok(())
}

// Reads the record of data bits.
pub fn read_record(book: &[u8], bits: &[u8]) -> Result<HookRecord, Refusal>
    ensures value { result ≡ read_record_call book.now bits.now }
    ensures number { outcome_number result ≡ read_record_number book.now bits.now }
{
    let x = load(book)?;
    if x.k != 32 || bits.len() != 32 {
        return Err(Refusal::Mismatch);
    }
    if !are_bits(bits) {
        return Err(Refusal::BadValue);
    }
    record_of(bits)
}
