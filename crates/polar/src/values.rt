// Soft values: hard decisions, magnitudes, Q and P, penalties and costs. Positive favours 0. Relies on no other file; specs/Soft.antt says what
// each is.
ghost use Rattle.std.specs.Prelude.{◌≡◌, ◌<◌, ◌+◌, nat_abs};
ghost use Rattle.polar.specs.Soft.{Q, P, hard, penalty, cost};

// The hard decision: 1 where s is below 0, else 0.
#[tactic(auto, using(crate::proofs::Soft::hard_one, crate::proofs::Soft::hard_zero))]
pub fn hard(s: i32) -> u8
    ensures { result ≡ hard s }
{
    if s < 0 { 1 } else { 0 }
}

// |s|.
pub fn magnitude(s: i32) -> u32
    requires { nat_abs s < 2147483648 }
    ensures { result ≡ nat_abs s }
{
    s.unsigned_abs()
}

// The lesser magnitude, with the product of the signs: where one of a and b is 0, so is the result.
pub fn q(a: i32, b: i32) -> i32
    requires { (nat_abs a < 2147483648) × (nat_abs b < 2147483648) }
    ensures { result ≡ Q a b }
{
    let least = a.unsigned_abs().min(b.unsigned_abs()) as i32;
    if (a < 0) == (b < 0) { least } else { -least }
}

// b + a for the bit 0, b - a for 1.
#[tactic(auto, using(crate::proofs::Soft::p_sum, crate::proofs::Soft::p_difference))]
pub fn p(v: u8, a: i32, b: i32) -> i32
    requires { nat_abs a + nat_abs b < 2147483648 }
    ensures { result ≡ P v a b }
{
    if v == 0 { b + a } else { b - a }
}

// 0 where s is 0 or the bit v is its hard decision, else -|s|.
pub fn penalty(v: u8, s: i32) -> i32
    ensures { result ≡ penalty v s }
{
    if v == hard(s) {
        0
    } else if s < 0 {
        s
    } else {
        -s
    }
}

// 0 where the bit v is the hard decision, else |s|.
pub fn cost(v: u8, s: i32) -> u32
    requires { nat_abs s < 2147483648 }
    ensures { result ≡ cost v s }
{
    if v == hard(s) { 0 } else { s.unsigned_abs() }
}
