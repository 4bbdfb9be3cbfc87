// Elements over whole numbers, in signed 64-bit numbers and in place: sums with rotations, and the quotients that multiplication by μ is made of.
// What a function asks of magnitudes leaves room for all its sums.
ghost use Rattle.std.specs.Prelude.{◌≡◌, ◌*◌, ◌^◌, ◌<◌, ◌≤◌, length, drop, nat_abs, neg_ℤ, ◌+ℤ◌};
ghost use Rattle.protocol.specs.Element.{signed};
ghost use Rattle.protocol.specs.Layout.{width};
ghost use Rattle.residues.specs.Lists.{filled};
ghost use Rattle.extraction.specs.Bounds.{Mirrorable, Summable, Doubling, Weighable};
ghost use Rattle.extraction.specs.Steps.{Mirrored, row_added, rotated_added, divided, weighted};

use residues::{on_circle, row_start};

fn plus(x: i64, y: i64) -> i64
    requires { nat_abs (x +ℤ y) < 2 ^ 63 }
    ensures { result ≡ x +ℤ y }
{
    x + y
}

fn minus(x: i64, y: i64) -> i64
    requires { nat_abs (x +ℤ neg_ℤ y) < 2 ^ 63 }
    ensures { result ≡ x +ℤ neg_ℤ y }
{
    x - y
}

// Adds the first n numbers of x to those of `out`, or takes them away. The sign is tested once, so that the compiler takes several numbers at a time.
fn add_row(negative: bool, n: usize, x: &[i64], out: &mut [i64])
    requires { Summable n x.now out.old }
    ensures { out.new ≡ row_added negative n x.now out.old }
{
    if negative {
        for k in 0..n {
            out[k] = minus(out[k], x[k]);
        }
        return;
    }
    for k in 0..n {
        out[k] = plus(out[k], x[k]);
    }
}

// Copies the first d numbers of a to x twice, with the other sign and then with their own: every X^e·a, e < d, is then d numbers of x in a row.
pub(crate) fn mirror(d: usize, a: &[i64], x: &mut [i64])
    requires { Mirrorable d a.now x.old }
    ensures { Mirrored d a.now x.new }
{
    for k in 0..d {
        let y = a[k];
        x[k] = minus(0, y);
        x[d + k] = y;
    }
}

// Adds X^e·a to the first d numbers of `out`, a being the second of x's two halves, which differ in their signs. It is one row of d numbers for every e: at small degrees
// loops whose lengths depend on e cost more than the second copy.
pub(crate) fn add_rotated(d: usize, e: usize, x: &[i64], out: &mut [i64])
    requires { (0 < d) × (d ≤ width) × (e < 2 * d) × (2 * d ≤ length x.now) × Mirrored d (drop d x.now) x.now × Summable d (drop d x.now) out.old }
    ensures { out.new ≡ rotated_added d e (drop d x.now) out.old }
{
    let low = e < d;
    let from = d - row_start(d, e);
    add_row(!low, d, &x[from..], out);
}

// a + X^e·a in place of a; x is room for two copies of a.
fn add_own(d: usize, e: usize, a: &mut [i64], x: &mut [i64])
    requires { (0 < d) × (d ≤ width) × (e < 2 * d) × (2 * d ≤ length x.old) × Summable d a.old a.old }
    ensures { a.new ≡ rotated_added d e a.old a.old }
{
    mirror(d, a, x);
    add_rotated(d, e, x, a);
}

// Doublings from any exponent to that of −1, and one more: `doublings_most` of the definitions.
const DOUBLINGS_MOST: usize = 8;

// 2·a divided by 1 − X^k, in place of a: a·(1 + X^k)·(1 + X^2k)·(1 + X^4k) and so on, until the next power is X^d, which is −1.
fn divide(d: usize, k: usize, a: &mut [i64], x: &mut [i64])
    requires { (2 * d ≤ length x.old) × Doubling d k a.old }
    ensures { a.new ≡ filled (divided d k (signed a.old)) d a.old }
{
    let mut e = k;
    for j in 0..DOUBLINGS_MOST {
        if e == d {
            return;
        }
        add_own(d, e, a, x);
        e = on_circle(d, 2 * e);
    }
}

// Both quotients, by 1 − X^k and by 1 − X^m, and then times 1 + X^e.
pub(crate) fn weigh(d: usize, k: usize, m: usize, e: usize, a: &mut [i64], x: &mut [i64])
    requires { (2 * d ≤ length x.old) × Weighable d k m e a.old }
    ensures { a.new ≡ filled (weighted d k m e (signed a.old)) d a.old }
{
    divide(d, k, a, x);
    divide(d, m, a, x);
    add_own(d, e, a, x);
}
