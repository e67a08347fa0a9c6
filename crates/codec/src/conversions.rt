// A status and its number: document 01, "The hook record". Relies on no other file; specs/Record.antt has the same numbers.
ghost use Rattle.std.specs.Prelude.{◌≡◌};
ghost use Rattle.codec.specs.Record.{status_number, status_given};

use crate::{Status, UnknownStatus};

// A status's number.
impl From<Status> for u32 {
    ghost from_gives = { λ s n. n ≡ status_number s };

    fn from(s: Status) -> u32 {
        s as u32
    }
}

// The status of a number.
impl TryFrom<u32> for Status {
    type Error = UnknownStatus;

    ghost try_from_gives = { λ n r. r ≡ status_given n };

    #[tactic(auto, unfolding(crate::specs::Record::status_of, crate::specs::Record::known_status, crate::specs::Record::status_given))]
    fn try_from(number: u32) -> Result<Status, UnknownStatus> {
        match number {
            0 => Ok(Status::Passed),
            1 => Ok(Status::HeldForLaboratory),
            2 => Ok(Status::HeldForVeterinarian),
            3 => Ok(Status::HeldForOwner),
            4 => Ok(Status::Condemned),
            _ => Err(UnknownStatus(number)),
        }
    }
}
