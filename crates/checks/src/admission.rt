// Whether a decoding call with a good book makes a run. Relies on beside.rt, tests.rt and the settings' check.
ghost use Rattle.std.specs.Prelude.{◌≡◌, ◌≤◌};
ghost use Rattle.settings.specs.Settings.{Ranged};
ghost use Rattle.machine.specs.Calls.{first_failed, tests_before};
ghost use Rattle.checks.specs.Checks.{fitting, admitted_as};

use crate::beside::{beside_ok, record_fits_book};
use crate::tests::{lengths_ok, values_ok};
use codebook::{Refusal, Shape};
use machine::{Lengths, Manner};
use settings::Settings;

// Whether all that is asked for 7 holds: of k, of the lengths, and of what is lent beside.
#[tactic(auto, unfolding(crate::specs::Checks::fitting))]
fn all_fit(k: Manner, x: Shape, s: Settings, l: Lengths) -> bool
    requires { (x.n ≤ 512) × (x.blocks ≤ 512) × Ranged s }
    ensures { result ≡ fitting k x s l }
{
    record_fits_book(k.reads, x) && lengths_ok(x, s, l) && beside_ok(k, x, s)
}

// The settings to run with, for a book of this shape; or the refusal of the first test that fails: 8 before 7 before 9.
pub fn admit(
    k: Manner,
    x: Shape,
    asked: Settings,
    l: Lengths,
    values: &[i16],
) -> Result<Settings, Refusal>
    requires { (x.n ≤ 512) × (x.blocks ≤ 512) }
    ensures { result ≡ admitted_as (first_failed (tests_before k x asked l values.now)) asked }
{
    let s = asked.checked()?;
    if !all_fit(k, x, s, l) {
        return Err(Refusal::Mismatch);
    }
    if !values_ok(values) {
        return Err(Refusal::BadValue);
    }
    Ok(s)
}
