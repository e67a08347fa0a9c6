// Tests of what a manner asks: of k, and of the slices that are lent beside. Relies on tests.rt; machine/specs/Calls says what each test is.
ghost use Rattle.std.specs.Prelude.{◌≡◌, ◌≤◌};
ghost use Rattle.settings.specs.Settings.{Ranged};
ghost use Rattle.machine.specs.Calls.{beside_ok, holds};

use crate::tests::walk_needed;
use codebook::Shape;
use machine::{Manner, Reads};
use settings::Settings;

// How many entries counts and record have as slices.
pub const COUNTS: usize = 4;

pub const RECORD: usize = 4;

// Whether a record that is to be read fits the book's data.
#[tactic(auto, unfolding(machine::specs::Calls::holds))]
pub fn record_fits_book(r: Reads, x: Shape) -> bool
    ensures { result ≡ holds r x }
{
    match r {
        Reads::Data => true,
        Reads::Record => x.k == 32,
    }
}

// Of the slices beside, if they are lent: whether there are enough step records, and counts and record have their size.
#[tactic(auto, unfolding(machine::specs::Calls::beside_ok, machine::specs::Calls::at_least, machine::specs::Calls::exactly))]
pub fn beside_ok(k: Manner, x: Shape, s: Settings) -> bool
    requires { (x.blocks ≤ 512) × Ranged s }
    ensures { result ≡ beside_ok k x s }
{
    let walk = walk_needed(x, s);
    k.steps.is_none_or(|size| walk <= size)
        && k.counts.is_none_or(|size| size == COUNTS)
        && k.hook.is_none_or(|size| size == RECORD)
}
