// Multiples X^e·a, which are rotations with signs, and the value of a polynomial at X^e. Every public function is safe for every input; what it gives is said
// by a definition under a condition that the refusals ensure. No residue is divided and no branch depends on one but by its order, so that the compiler takes
// several at a time.
#![tactic(auto)]

ghost use Rattle.std.specs.Prelude.{⊤, ◌≡◌, ℕ, ◌+◌, ◌*◌, ◌^◌, ◌<◌, ◌≤◌, length, pos, ◌+ℤ◌, get_or};
ghost use Rattle.protocol.specs.Basic.{Provided, tabulate};
ghost use Rattle.protocol.specs.Element.{modulo};
ghost use Rattle.residues.specs.Lists.{spliced};
ghost use Rattle.residues.specs.Residues.{signed};
ghost use Rattle.rotations.specs.Values.{Addable, Adds, Turnable, Gatherable, Valued, plus_turned};

use protocol::Residue;
use residues::Entry;
use residues::sums::{Modulo, Sum};

// Numbers modulo 2^64: sums of numbers with signs, which are reduced modulo q once all are added.
#[derive(Clone, Copy)]
struct Word;

impl Sum<u64> for Word {
    ghost allowed = { λ _ _ _. ⊤ };

    ghost sum = { λ _ negative x y. modulo (2 ^ 64) (pos x +ℤ signed negative (pos y)) };

    fn add(self, negative: bool, x: u64, y: u64) -> u64 {
        if negative {
            x.wrapping_sub(y)
        } else {
            x.wrapping_add(y)
        }
    }
}

// Adds a row to as many numbers, each to the one at its place, or takes it away.
fn add_row<T: Entry, S: Sum<T>>(by: S, negative: bool, row: &[T], sums: &mut [T])
    requires { length sums.old ≤ length row.now }
    ensures { Provided ((k : ℕ) → k < length sums.old → S.allowed by (get_or sums.old k T.NONE) (get_or row.now k T.NONE))
        (sums.new ≡ tabulate (length sums.old) (λ k. S.sum by negative (get_or sums.old k T.NONE) (get_or row.now k T.NONE))) }
{
    for (k, x) in sums.iter_mut().enumerate() {
        *x = by.add(negative, *x, row[k]);
    }
}

// Adds X^e·a to an element: X^e·a is two rows of a, with different signs.
fn add_multiple<S: Sum<u64>>(by: S, d: usize, e: usize, a: &[Residue], out: &mut [u64])
    requires { (e < 2 * d) × (d ≤ length a.now) × (length out.old ≡ d) }
    ensures { (q : ℕ) → Provided (Adds S.sum S.allowed by q d a.now out.old) (out.new ≡ tabulate d (plus_turned q d e a.now 0 out.old)) }
{
    let low = e < d;
    let s = residues::row_start(d, e);
    let (first, second) = out.split_at_mut(s);
    add_row(by, low, &a[d - s..], first);
    add_row(by, !low, a, second);
}

// Adds X^e·a to the element at a place of out: X^e·a is two rows of a, with different signs. The table stays as it is where there is no such exponent or
// element.
pub fn accumulate_turned(
    q: Residue,
    d: usize,
    e: usize,
    a: &[Residue],
    out: &mut [Residue],
    to: usize,
)
    ensures { Provided (Addable q d e a.now to out.old) (out.new ≡ spliced (plus_turned q d e a.now to out.old) to d out.old) }
{
    if a.len() < d {
        return;
    }
    if out.len() < d {
        return;
    }
    if out.len() - d < to {
        return;
    }
    if e >= 2 * d {
        return;
    }
    add_multiple(Modulo { q }, d, e, a, &mut out[to..to + d]);
}

// The same for every exponent, at the front of out.
pub fn add_turned(q: Residue, d: u32, e: u32, a: &[Residue], out: &mut [Residue])
    ensures { Provided (Turnable q d a.now out.old) (out.new ≡ spliced (plus_turned q d e a.now 0 out.old) 0 d out.old) }
{
    let n = d as usize;
    let once = residues::on_circle(n, e as usize);
    accumulate_turned(q, n, once, a, out, 0);
}

// Adds X^e·a, for every exponent, to the sums at the front of a table; they stay as they are where there is no such element.
pub fn gather_turned(d: u32, e: u32, a: &[Residue], sums: &mut [u64])
    ensures { Provided (Gatherable d (length a.now) (length sums.old))
        (sums.new ≡ spliced (plus_turned (2 ^ 64) d e a.now 0 sums.old) 0 d sums.old) }
{
    let n = d as usize;
    let once = residues::on_circle(n, e as usize);
    if a.len() < n {
        return;
    }
    if sums.len() < n {
        return;
    }
    if once >= 2 * n {
        return;
    }
    add_multiple(Word, n, once, a, &mut sums[..n]);
}

// The value at X^e of the polynomial with the coefficients c0, c1, c2, modulo q, written to the front of out.
pub fn value(
    q: Residue,
    d: u32,
    e: u32,
    c0: &[Residue],
    c1: &[Residue],
    c2: &[Residue],
    out: &mut [Residue],
)
    ensures { Valued q d e c0.now c1.now c2.now out.old out.new }
{
    let n = d as usize;
    let once = residues::on_circle(n, e as usize);
    let twice = residues::on_circle(n, once + once);
    residues::store(n, c0, 0, out);
    accumulate_turned(q, n, once, c1, out, 0);
    accumulate_turned(q, n, twice, c2, out, 0);
}
