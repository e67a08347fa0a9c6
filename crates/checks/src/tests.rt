// Tests of what a decoding call is given and lent: the values and the lengths. Relies on no other file; machine/specs/Calls says which are good.
ghost use Rattle.std.specs.Prelude.{◌≡◌, ◌≤◌, max, nat_abs};
ghost use Rattle.std.specs.List.{fold};
ghost use Rattle.settings.specs.Settings.{Ranged};
ghost use Rattle.machine.specs.Calls.{walk_needed, lengths_ok, values_ok};

use codebook::Shape;
use machine::Lengths;
use settings::Settings;

// The greatest magnitude of the values, which the compiler finds of several at once.
fn greatest(values: &[i16]) -> u16
    ensures { result ≡ fold (λ most y. max most (nat_abs y)) 0 values.now }
{
    values
        .iter()
        .fold(0, |most: u16, v| most.max(v.unsigned_abs()))
}

// Whether every value lies in -2,047 to 2,047.
#[tactic(auto, using(crate::proofs::Valued::greatest_ok))]
pub fn values_ok(values: &[i16]) -> bool
    ensures { result ≡ values_ok values.now }
{
    greatest(values) <= 2047
}

// How many extractions a run may have, and so the entries of a walk buffer.
#[tactic(auto, unfolding(machine::specs::Calls::walk_needed, queue::specs::Run::most_extractions))]
pub fn walk_needed(x: Shape, s: Settings) -> usize
    requires { (x.blocks ≤ 512) × Ranged s }
    ensures { result ≡ walk_needed x s }
{
    s.visits as usize * x.blocks as usize + 1
}

// Whether the lengths are right for a book of this shape, and these settings.
#[tactic(auto, using(std::proofs::lemmas::Bool::Decides::nat_tests), unfolding(machine::specs::Calls::lengths_ok, machine::specs::Calls::numbers_needed, machine::specs::Calls::bytes_needed))]
pub fn lengths_ok(x: Shape, s: Settings, l: Lengths) -> bool
    requires { (x.n ≤ 512) × (x.blocks ≤ 512) × Ranged s }
    ensures { result ≡ lengths_ok x s l }
{
    let n = x.n as usize;
    let k = x.k as usize;
    let paths = s.paths as usize;
    let walk = walk_needed(x, s);
    l.values == n
        && l.word == n
        && l.bits == k
        && paths * (2 * n + 32) <= l.numbers
        && paths * (2 * n) <= l.bytes
        && walk <= l.paths
        && walk <= l.blocks
        && walk <= l.scores
}
