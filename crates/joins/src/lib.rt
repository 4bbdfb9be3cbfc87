// Sums of products with residues of up to 61 bits, in numbers of 64 bits: they run twice, over the lower 32 bits of the residues and over what is above them, and
// are joined once. A modulus of 32 bits needs no second run. Every function is safe for every input.
#![tactic(auto)]

pub mod elements;

ghost use Rattle.std.specs.Prelude.{◌≡◌, ℕ, ◌-◌, ◌%◌, ◌^◌, ◌<◌, ◌≤◌, ℤ};
ghost use Rattle.protocol.specs.Basic.{Provided};
ghost use Rattle.protocol.specs.Element.{modulo};
ghost use Rattle.modular.specs.Factors.{Modulus, Prepared};
ghost use Rattle.joins.specs.Sums.{lower_half, upper_half, room, Halves, Ready};
ghost use Rattle.joins.specs.Sums as sums;

use modular::factors;
use modular::factors::Factor;

// The halves of a residue.
pub fn lower_half(x: u64) -> u64
    ensures { result ≡ lower_half x }
{
    x % 4294967296
}

pub fn upper_half(x: u64) -> u64
    ensures { result ≡ upper_half x }
{
    x / 4294967296
}

// What joins sums modulo q: the weight of an upper half, and a multiple of q that makes a sum positive.
#[derive(Clone, Copy)]
pub struct Joint {
    pub modulus: u64,
    pub weight: Factor,
    pub offset: u64,
}

// The weight of an upper half, where there are any.
fn weight(q: u64) -> Factor
    ensures { Provided (Modulus q) (Provided (sums.weight ≤ q) (Prepared q sums.weight result)) }
{
    if q < 4294967296 {
        return Factor {
            modulus: 0,
            residue: 0,
            share: 0,
        };
    }
    factors::prepare(q, 4294967296)
}

// The largest multiple of q up to 2^63.
fn multiple(q: u64) -> u64
    ensures { Provided (0 < q) (result ≡ 2 ^ 63 - 2 ^ 63 % q) }
{
    if q == 0 {
        return 0;
    }
    9223372036854775808 - 9223372036854775808 % q
}

// Prepared once for a modulus.
pub fn prepare(q: u64) -> Joint
    ensures { Provided (Modulus q) (Ready q result) }
{
    Joint {
        modulus: q,
        weight: weight(q),
        offset: multiple(q),
    }
}

// What the sum s over the lower halves and the sum t over the upper halves stand for, modulo q.
pub fn join(joint: Joint, s: u64, t: u64) -> u64
    ensures { (q : ℕ) (z : ℤ) → Provided (Ready q joint × Halves q z room s t) (result ≡ modulo q z) }
{
    let q = joint.modulus;
    if q == 0 {
        return 0;
    }
    let lower = s.wrapping_add(joint.offset);
    if q < 4294967296 {
        return lower % q;
    }
    let upper = factors::multiply(joint.weight, t.wrapping_add(joint.offset));
    lower.wrapping_add(upper) % q
}
