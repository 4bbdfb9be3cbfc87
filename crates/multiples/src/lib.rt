// Is the product of two elements c times a third, modulo q. The product is not reduced for that: c·(q − a) is added to its sums, for each number a of the third, and what they
// are joined to must be 0.
#![tactic(auto)]

ghost use Rattle.std.specs.Prelude.{◌≡◌, ℕ, ◌*◌, ◌^◌, ◌≤◌, length, ℤ, slice_index};
ghost use Rattle.protocol.specs.Basic.{every, Provided};
ghost use Rattle.protocol.specs.Element.{Element, width, product, signed, residue};
ghost use Rattle.modular.specs.Factors.{Modulus};
ghost use Rattle.joins.specs.Sums as joined;
ghost use Rattle.product_sums.specs.Sums.{Stands, Summable, Zero};
ghost use Rattle.multiples.specs.Multiples.{multiple_is};

use joins::Joint;
use product_sums::{FEW, Sum};
use protocol::{Residue, WIDTH};

const THRICE_FEW: usize = 3 * FEW;

const THRICE_WIDTH: usize = 3 * WIDTH;

// Do two sums stand for c·a modulo q, a being a residue: q divides that and c·(q − a).
fn sum_is(joint: Joint, s: Sum, t: Sum, c: u32, a: Residue) -> bool
    ensures { (q : ℕ) (z : ℤ) → Provided (joined.Ready q joint × joined.Halves q z (2 ^ 61) s t × (c ≤ 2 ^ 13)) (result ≡ multiple_is q c z a) }
{
    if a >= joint.modulus {
        return false;
    }
    let rest = joint.modulus - a;
    let lower = u64::from(c) * joins::lower_half(rest);
    let upper = u64::from(c) * joins::upper_half(rest);
    joins::join(joint, s.wrapping_add(lower), t.wrapping_add(upper)) == 0
}

// Do the sums of an element stand for c·a.
fn sums_are(q: Residue, d: usize, s: &[Sum], t: &[Sum], c: u32, a: &[Residue]) -> bool
    requires { (d ≤ length s.now) × (d ≤ length t.now) × (d ≤ length a.now) }
    ensures { (F : Element) (count : ℕ) → Provided (Modulus q × (count ≤ 2 ^ 29) × Stands q d F count s.now t.now × (c ≤ 2 ^ 13))
        (result ≡ every d (λ k. multiple_is q c (F k) (slice_index a.now k))) }
{
    let joint = joins::prepare(q);
    (0..d).all(|k| sum_is(joint, s[k], t[k], c, a[k]))
}

// Adds the product of f and g; x is room for g.
fn add_product(
    q: Residue,
    d: u32,
    f: &[i32],
    g: &[Residue],
    x: &mut [u64],
    s: &mut [Sum],
    t: &mut [Sum],
)
    requires { (d ≤ width) × (d ≤ length f.now) × (d ≤ length g.now) × (d ≤ length s.old) }
    ensures { (z : Summable q d 1 f.now g.now) → Provided ((3 * d ≤ length x.old) × (d ≤ length t.old) × Zero s.old × Zero t.old)
        (Stands q d (product d (signed f.now) (residue g.now)) (d * z.magnitude) s.new t.new) }
{
    if d == 4 && q < 4294967296 {
        columns::add_table(1, f, g, s);
        return;
    }
    rows::prepare(q, d, g, x);
    product_sums::add_prepared(q, 1, d, f, x, s, t);
}

// Is the product of the elements f and g c times the element a, modulo q, with room for N numbers of an element, and for the X that are prepared of them.
fn product_in<const N: usize, const X: usize>(
    q: Residue,
    d: u32,
    f: &[i32],
    g: &[Residue],
    c: u32,
    a: &[Residue],
) -> bool
    requires { (d ≤ N) × (3 * d ≤ X) × (N ≤ width) × (X ≤ 3 * width) × (d ≤ length f.now) × (d ≤ length g.now) × (d ≤ length a.now) }
    ensures { Provided (Summable q d 1 f.now g.now × (c ≤ 2 ^ 13))
        (result ≡ every d (λ k. multiple_is q c (product d (signed f.now) (residue g.now) k) (slice_index a.now k))) }
{
    let mut x = [0u64; X];
    let mut s = [0u64; N];
    let mut t = [0u64; N];
    add_product(q, d, f, g, &mut x, &mut s, &mut t);
    sums_are(q, d as usize, &s, &t, c, a)
}

// The same for every input. A small degree takes smaller sums, since all of them are set to 0 first.
pub fn product_is(q: Residue, d: u32, f: &[i32], g: &[Residue], c: u32, a: &[Residue]) -> bool
    ensures { Provided (Summable q d 1 f.now g.now × (d ≤ length a.now) × (c ≤ 2 ^ 13))
        (result ≡ every d (λ k. multiple_is q c (product d (signed f.now) (residue g.now) k) (slice_index a.now k))) }
{
    let n = d as usize;
    if (q == 0) | (n == 0) | (n > WIDTH) {
        return false;
    }
    if (f.len() < n) | (g.len() < n) | (a.len() < n) {
        return false;
    }
    if n <= FEW {
        return product_in::<FEW, THRICE_FEW>(q, d, f, g, c, a);
    }
    product_in::<WIDTH, THRICE_WIDTH>(q, d, f, g, c, a)
}
