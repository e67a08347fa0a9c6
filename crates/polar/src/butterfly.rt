// The transform in place, stage by stage. Relies on layers.rt; specs/Transform.antt says what the transform is, specs/Layers.antt what a stage is.
ghost use Rattle.std.specs.Prelude.{◌≡◌, ◌+◌, ◌*◌, ◌^◌, ◌≤◌, length};
ghost use Rattle.laws.specs.Lists.{All};
ghost use Rattle.polar.specs.Bits.{Bit, add_bits};
ghost use Rattle.polar.specs.Transform.{transform};
ghost use Rattle.polar.specs.Layers.{part, over_at, stage};

use crate::layers::add_sums;

// Adds the last half of the run of 2h bits at `at` to its first half. Up to 4 sums are written out: a loop costs more than they do.
fn add_run(c: &mut [u8], at: usize, h: usize)
    requires { (at + (h + h) ≤ length c.old) × All Bit c.old }
    ensures { let l = c.old in
        c.new ≡ over_at at (add_bits (part at h l) (part (at + h) h l)) l }
{
    if h > 4 {
        add_sums(c, at, at + h, at, h);
        return;
    }
    if h == 0 {
        return;
    }
    c[at] = c[at] ^ c[at + h];
    if h == 1 {
        return;
    }
    c[at + 1] = c[at + 1] ^ c[at + h + 1];
    if h == 2 {
        return;
    }
    c[at + 2] = c[at + 2] ^ c[at + h + 2];
    if h == 3 {
        return;
    }
    c[at + 3] = c[at + 3] ^ c[at + h + 3];
}

// Adds the last half of each of k runs of 2h bits to its first half.
fn stage(c: &mut [u8], k: usize, h: usize)
    requires { (length c.old ≡ k * (h + h)) × All Bit c.old }
    ensures { c.new ≡ stage k h c.old }
{
    for run in 0..k {
        add_run(c, run * (h + h), h);
    }
}

// u becomes u·A.
pub fn transform(c: &mut [u8], m: u32)
    requires { (length c.old ≡ 2 ^ m) × All Bit c.old }
    ensures { c.new ≡ transform m c.old }
{
    let n = c.len();
    // Each run of h = 2^j bits is transformed by itself.
    for j in 0..m {
        stage(c, n >> (j + 1), 1 << j);
    }
}
