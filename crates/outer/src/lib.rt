// Words of a block: the definitions by the values of its node, and that these are the machine's words. The search for them stands in the crates
// above: tables, passes, short, search. Here are the types that it answers with.

#![tactic(auto)]

// A word of a block: the setting of the free bits that makes it, the set of the parities after it, its cost and its number; zeros for none.
#[derive(Clone, Copy)]
pub struct Candidate {
    pub some: bool,
    pub setting: u32,
    pub parities: u32,
    pub cost: u32,
    pub number: u32,
}

// The nearest word of a block and the next after it.
#[derive(Clone, Copy)]
pub struct Pair {
    pub first: Candidate,
    pub second: Candidate,
}

// The next word of a block after one and, where that is known too, the next after it.
#[derive(Clone, Copy)]
pub struct Next {
    pub first: Candidate,
    pub second: Candidate,
    pub known: bool,
}

// Room for a search: a block's words, its sets or the keys of its half bytes, and the costs of half bytes. It may hold anything.
#[derive(Drop)]
pub struct Scratch {
    pub words: [u32; 256],
    pub sets: [u32; 256],
    pub sums: [u32; 128],
}
