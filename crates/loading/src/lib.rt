// The loader of code books: a command is read, judged and obeyed, and so the next, to the end. Relies on the crates commands, obeying and codebook;
// codebook/specs/Loading says what loading is, codebook/specs/Tables what the loader fills.

#![tactic(auto)]

pub mod loader;

pub use loader::{load, load_tables};
