// The upper halves of a room, and the sums of an element.
ghost use Rattle.std.specs.Prelude.{◌≡◌, ℕ, ◌*◌, ◌≤◌, length, slice_index};
ghost use Rattle.protocol.specs.Basic.{Provided};
ghost use Rattle.protocol.specs.Element.{Element, width, modulo, reduced, padded};
ghost use Rattle.residues.specs.Lists.{filled};
ghost use Rattle.rows.specs.Rows.{woven};
ghost use Rattle.joins.specs.Sums.{upper_half, Ready, Stand, Strands};

use crate::Joint;
use protocol::{ROWS, WIDTH};

// The upper halves of the first n numbers of x, each in its number's place.
pub fn upper_halves(n: usize, x: &mut [u64])
    ensures { Provided (n ≤ length x.old) (x.new ≡ filled (λ k. upper_half (slice_index x.old k)) n x.old) }
{
    if x.len() < n {
        return;
    }
    let front = &mut x[..n];
    for y in front.iter_mut() {
        *y = crate::upper_half(*y);
    }
}

// The element that d sums s over lower halves and d sums t over upper halves stand for, modulo q.
pub fn join_all(joint: Joint, d: usize, s: &[u64], t: &[u64]) -> [u64; WIDTH]
    ensures { (q : ℕ) (F : Element) → Provided (Ready q joint × (d ≤ width) × Stand q d F s.now t.now) (result ≡ padded d (reduced q d F)) }
{
    let mut a = [0u64; WIDTH];
    if d > WIDTH {
        return a;
    }
    if s.len() < d {
        return a;
    }
    if t.len() < d {
        return a;
    }
    let front = &mut a[..d];
    for (k, x) in front.iter_mut().enumerate() {
        *x = crate::join(joint, s[k], t[k]);
    }
    a
}

// Strand r of the woven element that the sums stand for, written to the front of out.
pub fn join_strand(
    joint: Joint,
    strands: usize,
    r: usize,
    d: usize,
    s: &[u64],
    t: &[u64],
    out: &mut [u64],
)
    ensures { (q : ℕ) (F : ℕ → Element) → Provided (Ready q joint × Strands strands r d (length out.old) × Stand q (d * strands) (woven strands F) s.now t.now)
        (out.new ≡ filled (λ k. modulo q (F r k)) d out.old) }
{
    if strands > ROWS {
        return;
    }
    if d > WIDTH {
        return;
    }
    if r >= strands {
        return;
    }
    if s.len() < d * strands {
        return;
    }
    if t.len() < d * strands {
        return;
    }
    if out.len() < d {
        return;
    }
    let front = &mut out[..d];
    for (k, x) in front.iter_mut().enumerate() {
        let at = k * strands + r;
        *x = crate::join(joint, s[at], t[at]);
    }
}
