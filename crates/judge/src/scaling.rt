// Products with one number modulo q. Where q has 32 bits a product fits 64 bits and is divided; else the number is a prepared factor.
ghost use Rattle.std.specs.Prelude.{◌≡◌, ◌+◌, ◌*◌, ◌%◌, ◌^◌, ◌<◌, ◌≤◌, length, get_or};
ghost use Rattle.modular.specs.Factors.{Modulus};
ghost use Rattle.residues.specs.Lists.{filled};
ghost use Rattle.judge.specs.Scaling.{Ready, Reduced};

use modular::factors;
use modular::factors::Factor;
use protocol::Residue;

// The largest modulus whose residues have 32 bits.
pub(crate) const NARROW: Residue = 4294967296;

// The factor y, prepared where it is used: at a larger modulus.
pub(crate) fn prepared(q: Residue, y: u64) -> Factor
    requires { Modulus q × (y ≤ 2 ^ 32) }
    ensures { Ready q y result }
{
    if q <= NARROW {
        return factors::prepare(0, y);
    }
    factors::prepare(q, y)
}

// y·x modulo q
pub(crate) fn times(q: Residue, y: u64, factor: Factor, x: Residue) -> Residue
    requires { Ready q y factor × (x < q) }
    ensures { result ≡ y * x % q }
{
    if q <= NARROW {
        return y * x % q;
    }
    factors::multiply(factor, x)
}

// a + y·b modulo q
fn joined(q: Residue, y: u64, factor: Factor, a: Residue, b: Residue) -> Residue
    requires { Ready q y factor × (a < q) × (b < q) }
    ensures { result ≡ (a + y * b) % q }
{
    residues::plus(q, a, times(q, y, factor, b))
}

// The same for elements, in place of a.
pub(crate) fn add_scaled(q: Residue, d: usize, y: u64, b: &[Residue], a: &mut [Residue])
    requires { Modulus q × (y ≤ 2 ^ 32) × (d ≤ length b.now) × (d ≤ length a.old) × Reduced q d b.now × Reduced q d a.old }
    ensures { a.new ≡ filled (λ k. (get_or a.old k 0 + y * get_or b.now k 0) % q) d a.old }
{
    let factor = prepared(q, y);
    for (k, x) in a[..d].iter_mut().enumerate() {
        *x = joined(q, y, factor, *x, b[k]);
    }
}
