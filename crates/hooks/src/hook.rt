// The hook record and its 32 data bits. Relies on fields.rt; codec/specs/Record says what the bits are, codec/specs/Calls what reading answers.
ghost use Rattle.std.specs.Prelude.{◌≡◌, length};
ghost use Rattle.laws.specs.Lists.{All};
ghost use Rattle.polar.specs.Bits.{Bit};
ghost use Rattle.codec.specs.Calls.{record_read};
ghost use Rattle.codec.specs.Record.{record_fits, record_bits, read_record};

use crate::fields::{field, put_field};
use codebook::Refusal;
use codec::{HookRecord, Status};

// Whether each field fits its bits.
#[tactic(auto, using(std::proofs::lemmas::Bool::Decides::nat_tests), unfolding(codec::specs::Record::record_fits))]
pub fn record_fits(h: HookRecord) -> bool
    ensures { result ≡ record_fits h }
{
    h.plant < 64 && h.carcass < 1048576 && h.side < 2
}

// Writes a record into 32 bits.
pub fn put_record(bits: &mut [u8], h: HookRecord)
    requires { length bits.old ≡ 32 }
    ensures { bits.new ≡ record_bits h }
{
    put_field(&mut bits[0..6], h.plant);
    put_field(&mut bits[6..26], h.carcass);
    put_field(&mut bits[26..27], h.side);
    put_field(&mut bits[27..30], u32::from(h.status));
    put_field(&mut bits[30..32], 0);
}

// The record of 32 bits, unless the status is 5 to 7 or a spare bit is 1.
pub fn record_of(bits: &[u8]) -> Result<HookRecord, Refusal>
    requires { (length bits.now ≡ 32) × All Bit bits.now }
    ensures { result ≡ record_read (read_record bits.now) }
{
    let Ok(status) = Status::try_from(field(&bits[27..30])) else {
        return Err(Refusal::Unreadable);
    };
    if field(&bits[30..32]) != 0 {
        return Err(Refusal::Unreadable);
    }
    Ok(HookRecord {
        plant: field(&bits[0..6]),
        carcass: field(&bits[6..26]),
        side: field(&bits[26..27]),
        status,
    })
}
