// The types of encoding, testing and reading, and of hook records. The crates filling, hooks and coding have the code.
// specs/Record.antt gives document 01's number for each status; specs/Calls.antt says what each call answers.

#![tactic(auto)]

mod conversions;

// The status of a carcass.
#[derive(Clone, Copy, Debug, PartialEq, Eq, Default)]
pub enum Status {
    #[default]
    Passed = 0,
    HeldForLaboratory = 1,
    HeldForVeterinarian = 2,
    HeldForOwner = 3,
    Condemned = 4,
}

// A number that is no status's.
#[derive(Clone, Copy, Debug, PartialEq, Eq)]
pub struct UnknownStatus(pub u32);

// A hook record. The side is 0 for left, 1 for right. By default it is zeros, passed: what is answered where no record is read.
#[derive(Clone, Copy, Debug, PartialEq, Eq, Default)]
pub struct HookRecord {
    pub plant: u32,
    pub carcass: u32,
    pub side: u32,
    pub status: Status,
}
