// Program `walk`: decodes the input on standard input and prints its walk. Relies on crate listing. The longest input that is not refused as 7 or before has
// 65,672 bytes; of a longer one the bytes read here are enough to judge it.

#![tactic(auto)]

// Standard input's descriptor.
const STDIN_FILENO: i32 = 0;

fn main() {
    let mut input = [0u8; 65700];
    let n = io::read_full(STDIN_FILENO, &mut input);
    listing::list(&input[..n]);
}
