// Folds of flat tables of residues. Every public function is safe for every input; what it gives is said by a definition under a condition that the refusals
// ensure.
#![tactic(auto)]

ghost use Rattle.std.specs.Prelude.{◌≡◌, ◌+◌, ◌*◌, ◌<◌, ◌≤◌, length, get_or};
ghost use Rattle.protocol.specs.Basic.{Provided};
ghost use Rattle.protocol.specs.Element.{width};
ghost use Rattle.protocol.specs.Opening.{fold_residues};
ghost use Rattle.residues.specs.Lists.{spliced};
ghost use Rattle.residues.specs.Places.{Line, Grid, Disjoint, Apart, Added};
ghost use Rattle.folds.specs.Folds.{Halves, Foldable, half_most, fold_down, fold_halves};

use protocol::{Residue, WIDTH};
use residues::sums::{Modulo, Sum};
use residues::{Entry, ROWS_FROM};

// The most elements of a half: `half_most` of the definitions.
pub const HALF_MOST: u32 = 128;

// The n numbers from a place on, moved down to another place of the same table: in one slice with those that are read, so the loop counts.
fn move_down(n: usize, from: usize, to: usize, t: &mut [Residue])
    requires { (to ≤ from) × (from + n ≤ length t.old) }
    ensures { t.new ≡ spliced (λ k. get_or t.old (from + k) 0) to n t.old }
{
    if to == from {
        return;
    }
    for k in 0..n {
        t[to + k] = t[from + k];
    }
}

// Adds the number that stands `place` places behind `from` to the one that stands as far behind `to`, or takes it away.
fn add_one<T: Entry, S: Sum<T>>(
    by: S,
    negative: bool,
    place: usize,
    from: usize,
    to: usize,
    t: &mut [T],
)
    requires { (from + place < length t.old) × (to + place < length t.old) }
    ensures { Added T.NONE (S.allowed by) (S.sum by negative) from to (λ y. y ≡ place) t.old t.new }
{
    t[to + place] = by.add(negative, t[to + place], t[from + place]);
}

// The same of n numbers in a row, the first `at` places behind: the compiler takes several of them at a time. They stand behind all that is written, in one slice
// with it, so the loop counts.
fn add_row<T: Entry, S: Sum<T>>(
    by: S,
    negative: bool,
    at: usize,
    n: usize,
    from: usize,
    to: usize,
    t: &mut [T],
)
    requires { Apart (Line at 1 n) from to (length t.old) }
    ensures { Added T.NONE (S.allowed by) (S.sum by negative) from to (Line at 1 n) t.old t.new }
{
    for i in 0..n {
        add_one(by, negative, at + i, from, to, t);
    }
}

// The same of n numbers that stand `step` apart: in one slice with those that are read, so the loop counts.
fn add_line<T: Entry, S: Sum<T>>(
    by: S,
    negative: bool,
    at: usize,
    step: usize,
    n: usize,
    from: usize,
    to: usize,
    t: &mut [T],
)
    requires { (0 < step) × Apart (Line at step n) from to (length t.old) }
    ensures { Added T.NONE (S.allowed by) (S.sum by negative) from to (Line at step n) t.old t.new }
{
    if step == 1 {
        add_row(by, negative, at, n, from, to, t);
        return;
    }
    for i in 0..n {
        add_one(by, negative, at + i * step, from, to, t);
    }
}

// The same of m such lines, which begin `gap` apart.
fn add_grid<T: Entry, S: Sum<T>>(
    by: S,
    negative: bool,
    n: usize,
    step: usize,
    gap: usize,
    m: usize,
    from: usize,
    to: usize,
    t: &mut [T],
)
    requires { (0 < step) × (m * gap ≤ half_most * width) × Disjoint (λ j. Line (j * gap) step n) m × Apart (Grid n step gap m) from to (length t.old) }
    ensures { Added T.NONE (S.allowed by) (S.sum by negative) from to (Grid n step gap m) t.old t.new }
{
    for j in 0..m {
        add_line(by, negative, j * gap, step, n, from, to, t);
    }
}

// The same of m coefficients of each of h elements, column after column or row after row.
fn add_places<T: Entry, S: Sum<T>>(
    by: S,
    negative: bool,
    d: usize,
    h: usize,
    m: usize,
    from: usize,
    to: usize,
    t: &mut [T],
)
    requires { (0 < d) × (d ≤ width) × (h ≤ half_most) × (m ≤ d) × Apart (Grid m 1 d h) from to (length t.old) }
    ensures { Added T.NONE (S.allowed by) (S.sum by negative) from to (Grid m 1 d h) t.old t.new }
{
    if d < ROWS_FROM {
        add_grid(by, negative, h, d, 1, m, from, to, t);
        return;
    }
    add_grid(by, negative, m, 1, d, h, from, to, t);
}

// The same for every input: the table stays as it is where a size is past its limit, or the numbers that are added do not stand in it behind all that are written.
pub fn add_part<T: Entry, S: Sum<T>>(
    by: S,
    negative: bool,
    d: usize,
    h: usize,
    m: usize,
    from: usize,
    to: usize,
    t: &mut [T],
)
    ensures { Provided ((0 < d) × (d ≤ width) × (h ≤ half_most) × (m ≤ d) × Apart (Grid m 1 d h) from to (length t.old))
        (Added T.NONE (S.allowed by) (S.sum by negative) from to (Grid m 1 d h) t.old t.new) }
{
    if d > WIDTH {
        return;
    }
    if h > HALF_MOST as usize {
        return;
    }
    if m > d {
        return;
    }
    if h == 0 {
        return;
    }
    if m == 0 {
        return;
    }
    let reach = h * d + m - d;
    if t.len() < reach {
        return;
    }
    if t.len() - reach < from {
        return;
    }
    if from < reach {
        return;
    }
    if from - reach < to {
        return;
    }
    add_places(by, negative, d, h, m, from, to, t);
}

// Adds X^e times each of the h elements from place `second` on to those from place `to` on, which stand before them.
fn fold_each(q: Residue, d: usize, h: usize, e: usize, to: usize, second: usize, t: &mut [Residue])
    requires { (0 < d) × (d ≤ width) × (e < 2 * d) × (h ≤ half_most) × (to + h * d ≤ second) × (second + h * d ≤ length t.old) }
    ensures { Provided (Halves q (h * d) to second t.old) (t.new ≡ fold_halves q d h e to second t.old) }
{
    let low = e < d;
    let s = residues::row_start(d, e);
    let rest = d - s;
    let by = Modulo { q };
    add_part(by, low, d, h, s, second + rest, to, t);
    add_part(by, !low, d, h, rest, second, to + s, t);
}

// The fold of the 2h elements from place `from` on, written from place `to` on.
fn fold_elements(
    q: Residue,
    d: usize,
    h: usize,
    e: usize,
    from: usize,
    to: usize,
    t: &mut [Residue],
)
    requires { (0 < d) × (d ≤ width) × (h ≤ half_most) × (to ≤ from) × (from + 2 * (h * d) ≤ length t.old) }
    ensures { Provided (Foldable q d h from to t.old) (t.new ≡ fold_down q d h e from to t.old) }
{
    let half = h * d;
    let once = residues::on_circle(d, e);
    move_down(half, from, to, t);
    fold_each(q, d, h, once, to, from + half, t);
}

// The same for every input: the table stays as it is where so many elements do not stand in it.
pub fn fold_down(q: Residue, d: u32, h: u32, e: u32, from: u32, to: u32, t: &mut [Residue])
    ensures { Provided (Foldable q d h from to t.old) (t.new ≡ fold_down q d h e from to t.old) }
{
    let n = d as usize;
    if n == 0 {
        return;
    }
    if n > WIDTH {
        return;
    }
    if h > HALF_MOST {
        return;
    }
    if to > from {
        return;
    }
    if t.len() < (from as usize) + 2 * ((h as usize) * n) {
        return;
    }
    fold_elements(q, n, h as usize, e as usize, from as usize, to as usize, t);
}

// The fold of a table of residues by X^e, in place, the halves having h elements.
pub fn fold_residues(q: Residue, d: u32, h: u32, e: u32, t: &mut [Residue])
    ensures { Provided (Foldable q d h 0 0 t.old) (t.new ≡ fold_residues q d h e t.old) }
{
    fold_down(q, d, h, e, 0, 0, t);
}
