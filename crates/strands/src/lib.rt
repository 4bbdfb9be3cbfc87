// The elements at one place of all rows of a key, or of the sums of its halves, prepared for products: one woven element, whose strand r is row r's.
#![tactic(auto)]

ghost use Rattle.std.specs.Prelude.{◌≡◌, List, ℕ, ◌+◌, ◌*◌, ◌^◌, ◌<◌, ◌≤◌, length};
ghost use Rattle.protocol.specs.Basic.{Provided};
ghost use Rattle.protocol.specs.Element.{Element, width};
ghost use Rattle.protocol.specs.Layout.{rows_most};
ghost use Rattle.half_sums.specs.Halves.{keys_of};
ghost use Rattle.rows.specs.Rows.{woven, Prepared};
ghost use Rattle.strands.specs.Strands.{StrandIn, Woven, KeyGiven, KeyRows};

use protocol::{ROWS, Residue, WIDTH};

// Writes the d numbers of an element as strand r, where there are so many.
fn weave(strands: usize, r: usize, d: usize, a: &[Residue], k: &mut [Residue])
    requires { (strands ≤ rows_most) × (r < strands) × (d ≤ width) × (d * strands ≤ length k.old) }
    ensures { Provided (d ≤ length a.now) (StrandIn strands r d a.now k.old k.new) }
{
    if a.len() < d {
        return;
    }
    for (j, x) in a[..d].iter().enumerate() {
        k[j * strands + r] = *x;
    }
}

// Element i of a row, or of the sum of its halves, as strand r; a is room for it.
fn weave_key(
    sums: bool,
    q: Residue,
    d: usize,
    n: usize,
    i: usize,
    strands: usize,
    r: usize,
    g: &[Residue],
    a: &mut [Residue],
    k: &mut [Residue],
)
    requires { (strands ≤ rows_most) × (r < strands) × (d ≤ width) × (n < 2 ^ 32) × (i < n) × (d * strands ≤ length k.old) }
    ensures { (F : ℕ → Element) → Provided (KeyGiven sums q d n g.now × (d ≤ length a.old) × ((j : ℕ) → j < d → keys_of sums q d n g.now i j ≡ F r j)
        × Woven strands r d F k.old)
        (Woven strands (r + 1) d F k.new) }
{
    let at = i * d;
    if sums {
        half_sums::add_key(q, d, at, n * d + at, g, a);
        weave(strands, r, d, a, k);
        return;
    }
    if g.len() < at {
        return;
    }
    weave(strands, r, d, &g[at..], k);
}

// The place `stride` behind another, or the end.
pub fn further(from: usize, stride: usize, end: usize) -> usize
    ensures { (result ≤ end) × Provided (from + stride ≤ end) (result ≡ from + stride) }
{
    if from > end {
        return end;
    }
    if end - from < stride {
        return end;
    }
    from + stride
}

// Element i of each row, as its strand.
fn weave_keys(
    sums: bool,
    q: Residue,
    d: usize,
    n: usize,
    i: usize,
    strands: usize,
    stride: usize,
    g: &[Residue],
    a: &mut [Residue],
    k: &mut [Residue],
)
    requires { (strands ≤ rows_most) × (d ≤ width) × (n < 2 ^ 32) × (i < n) × (d * strands ≤ length k.old) }
    ensures { (G : ℕ → List ℕ) → Provided (KeyRows sums q d n strands stride g.now G × (d ≤ length a.old))
        (Woven strands strands d (λ r. keys_of sums q d n (G r) i) k.new) }
{
    let mut from: usize = 0;
    for r in 0..strands {
        weave_key(sums, q, d, n, i, strands, r, &g[from..], a, k);
        from = further(from, stride, g.len());
    }
}

// Element i of one row, or of the sum of its halves, prepared in x.
fn prepare_key(
    sums: bool,
    q: Residue,
    d: u32,
    n: usize,
    i: usize,
    g: &[Residue],
    a: &mut [Residue],
    x: &mut [u64],
)
    requires { (d ≤ width) × (n < 2 ^ 32) × (i < n) }
    ensures { Provided (KeyGiven sums q d n g.now × (d ≤ length a.old) × (3 * d ≤ length x.old))
        (Prepared q d (keys_of sums q d n g.now i) x.new) }
{
    let cells = d as usize;
    let at = i * cells;
    if sums {
        half_sums::add_key(q, cells, at, n * cells + at, g, a);
        rows::prepare(q, d, a, x);
        return;
    }
    if g.len() < at {
        return;
    }
    rows::prepare(q, d, &g[at..], x);
}

// Element i of all rows, or of the sums of their halves, woven and prepared in x; a and k are room for one and for all of them. The rows begin at the distance
// `stride`. One row is not woven.
pub fn prepare(
    sums: bool,
    q: Residue,
    d: u32,
    n: u32,
    i: u32,
    rows: u32,
    stride: usize,
    g: &[Residue],
    a: &mut [Residue],
    k: &mut [Residue],
    x: &mut [u64],
)
    ensures { (G : ℕ → List ℕ) → Provided (KeyRows sums q d n rows stride g.now G × (i < n) × (d ≤ length a.old) × (d * rows ≤ length k.old)
        × (3 * (d * rows) ≤ length x.old)) (Prepared q (d * rows) (woven rows (λ r. keys_of sums q d n (G r) i)) x.new) }
{
    let cells = d as usize;
    if cells > WIDTH {
        return;
    }
    if i >= n {
        return;
    }
    if rows == 1 {
        prepare_key(sums, q, d, n as usize, i as usize, g, a, x);
        return;
    }
    let strands = rows as usize;
    if strands > ROWS {
        return;
    }
    if k.len() < cells * strands {
        return;
    }
    weave_keys(
        sums, q, cells, n as usize, i as usize, strands, stride, g, a, k,
    );
    rows::prepare(q, d * rows, k, x);
}
