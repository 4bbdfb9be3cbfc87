// Residues modulo q: single ones, exponents of X, rows that are copied, and elements. Every public function is safe for every input; what it gives is said by
// a definition, where needed under a condition that the refusals ensure. No residue is divided, and no branch depends on one but by its order.
#![tactic(auto)]

pub mod elements;
pub mod sums;

ghost use Rattle.std.specs.Prelude.{◌≡◌, ℕ, ◌+◌, ◌-◌, ◌*◌, ◌%◌, ◌<◌, ◌≤◌, List, ◌++◌, length, drop, replicate, pos, ◌+ℤ◌, neg_ℤ, get_or};
ghost use Rattle.protocol.specs.Basic.{Provided, tabulate};
ghost use Rattle.protocol.specs.Element.{width, modulo, coefficients, padded_signed, signed_at};
ghost use Rattle.residues.specs.Elements.{element_at, residues_element, signed_element};
ghost use Rattle.residues.specs.Lists.{spliced};
ghost use Rattle.residues.specs.Places.{SecondRow};
ghost use Rattle.residues.specs.Residues.{BothBelow, Copyable, signed};

use protocol::{Residue, WIDTH};

// 2^63. Where no modulus is larger, a difference that is below zero is seen by its highest bit, which the compiler asks for several numbers at a time.
const SIGN: u64 = 9223372036854775808;

// From this degree on a table is folded row by row, of which the compiler takes several numbers at a time. Rows of a smaller degree are so short that going down the
// columns of the table, where a loop ends only with the last element, is quicker; measured at every degree.
pub const ROWS_FROM: usize = 16;

// x + y modulo q, of residues, for every q.
fn plus_any(q: Residue, x: Residue, y: Residue) -> Residue
    ensures { Provided (BothBelow q x y) (result ≡ (x + y) % q) }
{
    let z = q.wrapping_sub(y);
    if x < z {
        return x.wrapping_add(y);
    }
    x - z
}

// The same, quicker where q is at most 2^63.
pub fn plus(q: Residue, x: Residue, y: Residue) -> Residue
    ensures { Provided (BothBelow q x y) (result ≡ (x + y) % q) }
{
    if q > SIGN {
        return plus_any(q, x, y);
    }
    let rest = x.wrapping_add(y).wrapping_sub(q);
    if rest < SIGN {
        return rest;
    }
    rest.wrapping_add(q)
}

// x − y modulo q, of residues, for every q.
fn minus_any(q: Residue, x: Residue, y: Residue) -> Residue
    ensures { Provided (BothBelow q x y) (result ≡ modulo q (pos x +ℤ neg_ℤ (pos y))) }
{
    if x < y {
        return x.wrapping_add(q.wrapping_sub(y));
    }
    x - y
}

// The same, quicker where q is at most 2^63.
pub fn minus(q: Residue, x: Residue, y: Residue) -> Residue
    ensures { Provided (BothBelow q x y) (result ≡ modulo q (pos x +ℤ neg_ℤ (pos y))) }
{
    if q > SIGN {
        return minus_any(q, x, y);
    }
    let rest = x.wrapping_sub(y);
    if rest < SIGN {
        return rest;
    }
    rest.wrapping_add(q)
}

// −y modulo q, of a residue.
pub fn negated(q: Residue, y: Residue) -> Residue
    ensures { Provided (y < q) (result ≡ modulo q (neg_ℤ (pos y))) }
{
    if y == 0 {
        return 0;
    }
    q.wrapping_sub(y)
}

// x + y modulo q, or x − y.
pub fn signed_sum(q: Residue, negative: bool, x: Residue, y: Residue) -> Residue
    ensures { Provided (BothBelow q x y) (result ≡ modulo q (pos x +ℤ signed negative (pos y))) }
{
    if negative {
        return minus(q, x, y);
    }
    plus(q, x, y)
}

// An exponent of X on the circle of 2d places, which is below 2·WIDTH for every d.
pub fn on_circle(d: usize, e: usize) -> usize
    ensures { Provided ((0 < d) × (d ≤ width)) (result ≡ e % (2 * d)) × (result < 2 * width) }
{
    if d == 0 {
        return 0;
    }
    if d > WIDTH {
        return 0;
    }
    if e < 2 * d {
        return e;
    }
    e % (2 * d)
}

// Where the second of the two rows begins that X^e·a is made of, with different signs; it is a place of the element, or its end, for every e.
pub fn row_start(d: usize, e: usize) -> usize
    ensures { (result ≤ d) × Provided (e < 2 * d) (SecondRow d e result) }
{
    if e < d {
        return e;
    }
    if e - d > d {
        return d;
    }
    e - d
}

// A number of a table: what is read where the table has none, and what an element of a flat table is when it is passed by value.
pub trait Entry: Copy {
    ghost NONE: { Self };

    const NONE: Self;

    ghost element: { ℕ → List Self → ℕ → List Self };

    ghost element_is: { (d : ℕ) (t : List Self) (i : ℕ) → element d t i ≡ tabulate d (λ k. get_or t (i * d + k) NONE) ++ replicate (width - d) NONE };
}

impl Entry for Residue {
    ghost NONE = { 0 };

    const NONE: Residue = 0;

    ghost element = { element_at };

    ghost element_is = { residues_element };
}

impl Entry for i32 {
    ghost NONE = { pos 0 };

    const NONE: i32 = 0;

    ghost element = { λ d t i. padded_signed d (coefficients d (signed_at d t i)) };

    ghost element_is = { signed_element };
}

// The first n entries of a row, written to a table from a place on. The table stays as it is where they do not stand in the row, or have no room.
pub fn store<T: Entry>(n: usize, row: &[T], at: usize, out: &mut [T])
    ensures { Provided (Copyable n row.now at out.old) (out.new ≡ spliced (λ k. get_or row.now k T.NONE) at n out.old) }
{
    if row.len() < n {
        return;
    }
    if out.len() < n {
        return;
    }
    if out.len() - n < at {
        return;
    }
    let part = &mut out[at..at + n];
    for (k, x) in part.iter_mut().enumerate() {
        *x = row[k];
    }
}

// A table copied to the front of one that is not shorter.
pub fn copy(table: &[Residue], to: &mut [Residue])
    ensures { Provided (length table.now ≤ length to.old) (to.new ≡ table.now ++ drop (length table.now) to.old) }
{
    store(table.len(), table, 0, to);
}
