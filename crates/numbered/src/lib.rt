// The calls but for decoding as C calls them: a number as the answer, shape and record in lent slices. Relies on the crates answers, loading and coding;
// specs/Answers.antt says what each answers and leaves.

#![tactic(auto)]

pub mod book;
pub mod records;
pub mod words;

pub use book::load_answer;
pub use records::{make_record_number, read_record_answer};
pub use words::{encode_number, read_data_number, test_number};
