// The numbers of answers that are no plain outcome: of a slice lent at a wrong length, and of a test. Relies on the crate codebook;
// specs/Numbers.antt says what the first is, codec/specs/Numbers the second.
ghost use Rattle.std.specs.Prelude.{◌≡◌};
ghost use Rattle.codec.specs.Numbers.{tested_number};
ghost use Rattle.answers.specs.Numbers.{length_mismatch};

use codebook::Refusal;

// The number where shape or record have a wrong length, by what loading comes to.
pub fn length_mismatch<T: Drop>(r: Result<T, Refusal>) -> u32
    ensures { result ≡ length_mismatch r }
{
    match r {
        Ok(_) => u32::from(Refusal::Mismatch),
        Err(r) => u32::from(r),
    }
}

// The number of a test's answer; "not in the code" is no refusal.
pub fn tested_number(t: Result<bool, Refusal>) -> u32
    ensures { result ≡ tested_number t }
{
    match t {
        Ok(true) => 0,
        Ok(false) => 255,
        Err(r) => u32::from(r),
    }
}
