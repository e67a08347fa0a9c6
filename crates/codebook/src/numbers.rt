// The numbers of refusals and outcomes: document 01, "Refusal table". Relies on no other file; specs/Refusals.antt has the same numbers.
ghost use Rattle.std.specs.Prelude.{◌≡◌};
ghost use Rattle.codebook.specs.Refusals.{refusal_number, outcome_number};

use crate::{Outcome, Refusal};

// A refusal's number.
impl From<Refusal> for u32 {
    ghost from_gives = { λ r n. n ≡ refusal_number r };

    fn from(r: Refusal) -> u32 {
        match r {
            Refusal::Truncated => 1,
            Refusal::Unknown => 2,
            Refusal::Misplaced => 3,
            Refusal::OutOfRange => 4,
            Refusal::TooManyTied => 5,
            Refusal::TooManyFree => 6,
            Refusal::Mismatch => 7,
            Refusal::BadSetting => 8,
            Refusal::BadValue => 9,
            Refusal::AboveLimit => 10,
            Refusal::Unreadable => 11,
        }
    }
}

// An outcome's number: 0, or the refusal's.
pub fn outcome_number(o: Outcome) -> u32
    ensures { result ≡ outcome_number o }
{
    match o {
        Ok(()) => 0,
        Err(r) => u32::from(r),
    }
}
