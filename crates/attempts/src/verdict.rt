// The verdict on the word that a run found, and what is handed out by it. Relies on the crates hooks and checks; machine/specs/Calls has the verdicts in their order.
ghost use Rattle.std.specs.Prelude.{◌≡◌, true, cond, ◌≤◌, length, is_ok};
ghost use Rattle.polar.specs.Layers.{part};
ghost use Rattle.machine.specs.Calls.{SameOutput};
ghost use Rattle.attempts.specs.Attempt.{judged_final, judged_as, RecordIn};

use codebook::Refusal;
use codec::HookRecord;
use hooks::record_of;
use machine::{Output, Reads};
use settings::Settings;

// The record for a word with this discrepancy and these data, zeros where none is read; or 10 above the limit, 11 where the data hold no record.
pub fn judge(r: Reads, s: Settings, discrepancy: u32, info: &[u8]) -> Result<HookRecord, Refusal>
    requires { RecordIn r info.now }
    ensures { result ≡ judged_as r s (judged_final discrepancy info.now) }
{
    if s.limit < discrepancy {
        return Err(Refusal::AboveLimit);
    }
    match r {
        Reads::Data => Ok(HookRecord::default()),
        Reads::Record => record_of(info),
    }
}

// Where nothing is refused, word and data become the start of what was found; else they stay.
pub fn give(read: &Result<HookRecord, Refusal>, found: &[u8], info: &[u8], out: &mut Output)
    requires { is_ok read.now ≡ true → (length out.old.word.now ≤ length found.now) × (length out.old.bits.now ≤ length info.now) }
    ensures given { (out.new.word.now ≡ cond (is_ok read.now) (part 0 (length out.old.word.now) found.now) out.old.word.now)
        × (out.new.bits.now ≡ cond (is_ok read.now) (part 0 (length out.old.bits.now) info.now) out.old.bits.now) }
    ensures same { SameOutput out.new out.old }
{
    if read.is_ok() {
        let word = &mut *out.word;
        let bits = &mut *out.bits;
        let n = word.len();
        let k = bits.len();
        word.copy_from_slice(&found[..n]);
        bits.copy_from_slice(&info[..k]);
    }
}
