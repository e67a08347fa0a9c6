// The decoding calls: the general one, which takes the manner of a call; the plain call, which hands out word and data; and the hook call, which reads the record besides.

#![tactic(auto)]

pub mod call;

pub use call::{decode, decode_hook, decode_in};
