// Counts and record into lent slices. One that is lent at another size is left: the calls refuse it with 7. Relies on no other file; specs/Slices.antt says
// which entry is what.
ghost use Rattle.std.specs.Prelude.{◌≡◌};
ghost use Rattle.answers.specs.Slices.{counts_slice, record_slice, filled};

use codec::HookRecord;
use machine::Counts;

// All entries, where there is just the room for them.
#[tactic(auto, using(std::proofs::lemmas::Bool::Decides::nat_tests), unfolding(crate::specs::Slices::filled))]
fn put(slice: &mut [u32], entries: &[u32])
    ensures { slice.new ≡ filled entries.now slice.old }
{
    if slice.len() == entries.len() {
        slice.copy_from_slice(entries);
    }
}

// Extractions, crowded out, outrun, discrepancy.
#[tactic(auto, unfolding(crate::specs::Slices::counts_slice))]
pub fn put_counts(counts: &mut [u32], x: Counts)
    ensures { counts.new ≡ filled (counts_slice x) counts.old }
{
    put(counts, &[x.extractions, x.crowded, x.outrun, x.discrepancy]);
}

// Plant, carcass, side, status.
#[tactic(auto, unfolding(crate::specs::Slices::record_slice))]
pub fn put_hook(hook: &mut [u32], h: HookRecord)
    ensures { hook.new ≡ filled (record_slice h) hook.old }
{
    put(hook, &[h.plant, h.carcass, h.side, u32::from(h.status)]);
}
