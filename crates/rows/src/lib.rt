// The products of an element of whole numbers with elements of residues, added to sums modulo 2^64. Residues stand in 64 bits, and four rows are added
// at a time: so a row costs one product and one sum for each of its numbers. The elements of residues are strands of one woven element: with c of them,
// number k of strand r stands at place k·c + r, so that a row of all strands is one row, c times as long.
#![tactic(auto)]

ghost use Rattle.std.specs.Prelude.{◌≡◌, ◌+◌, ◌*◌, ◌%◌, ◌^◌, ◌<◌, ◌≤◌, length, unsigned_abs};
ghost use Rattle.protocol.specs.Basic.{Provided};
ghost use Rattle.protocol.specs.Element.{width, residue};
ghost use Rattle.protocol.specs.Layout.{rows_most, rows_width};
ghost use Rattle.residues.specs.Lists.{spliced};
ghost use Rattle.rows.specs.Rows.{turned, narrowed, start, add_row, add_rows, add_four, Rows, Residues, Preparable, Prepared};

use protocol::{ROWS, ROWS_WIDTH, Residue, WIDTH};

// The residues that stand at the places 0 to 3d − 1 of a, going round by X^d = −1, written to the front of y: each residue, its negative, and
// the residue again.
fn write_rows(q: Residue, d: usize, a: &[Residue], y: &mut [u64])
    requires { (d ≤ rows_width) × (d ≤ length a.now) × (3 * d ≤ length y.old) }
    ensures { Provided (Residues q d a.now) (y.new ≡ spliced (turned q d (residue a.now)) 0 (3 * d) y.old) }
{
    // One loop: at a small degree a copy of a row costs more than its numbers.
    for k in 0..d {
        let x = a[k];
        y[k] = x;
        y[d + k] = residues::negated(q, x);
        y[2 * d + k] = x;
    }
}

// Prepares an element of d residues, woven or not, at the front of a lent room: every rotation of it, with either sign, is then d places in a row. What stands
// behind it stays.
pub fn prepare(q: Residue, d: u32, a: &[Residue], x: &mut [u64])
    ensures { Provided (Preparable q d a.now (length x.old)) (Prepared q d (residue a.now) x.new) }
{
    let n = d as usize;
    if n > ROWS_WIDTH {
        return;
    }
    if a.len() < n {
        return;
    }
    if x.len() < 3 * n {
        return;
    }
    write_rows(q, n, a, x);
}

// s + m·y modulo 2^64, y being read modulo 2^32.
fn plus_scaled(s: u64, m: u32, y: u64) -> u64
    ensures { result ≡ (s + m * (y % 2 ^ 32)) % 2 ^ 64 }
{
    s.wrapping_add(u64::from(m).wrapping_mul(y % 4294967296))
}

// A row of a product: as many times what stands from a place on.
#[derive(Clone, Copy)]
struct Row {
    times: u32,
    at: usize,
}

// The row of a coefficient, `at` being its place in a strand times their number: a negative one takes the row n places before, which has the other sign.
fn row_of(n: usize, c: i32, at: usize) -> Row
    requires { (n ≤ rows_width) × (at < n) }
    ensures { (result.times ≡ unsigned_abs c) × (result.at ≡ start n c at) }
{
    Row {
        times: c.unsigned_abs(),
        at: if c < 0 { n - at } else { n + n - at },
    }
}

// One row of d sums.
fn add_row(d: usize, row: Row, x: &[u64], sums: &mut [u64])
    requires { (row.at + d ≤ length x.now) × (d ≤ length sums.old) }
    ensures { sums.new ≡ add_row d row.times row.at (narrowed x.now) sums.old }
{
    let front = &mut sums[..d];
    for (k, s) in front.iter_mut().enumerate() {
        *s = plus_scaled(*s, row.times, x[row.at + k]);
    }
}

// Four rows at a time.
fn add_four(d: usize, r0: Row, r1: Row, r2: Row, r3: Row, x: &[u64], sums: &mut [u64])
    requires { (r0.at + d ≤ length x.now) × (r1.at + d ≤ length x.now) × (r2.at + d ≤ length x.now) × (r3.at + d ≤ length x.now) × (d ≤ length sums.old) }
    ensures { sums.new ≡ add_row d r3.times r3.at (narrowed x.now)
        (add_row d r2.times r2.at (narrowed x.now) (add_row d r1.times r1.at (narrowed x.now) (add_row d r0.times r0.at (narrowed x.now) sums.old))) }
{
    let front = &mut sums[..d];
    for (k, s) in front.iter_mut().enumerate() {
        let first = plus_scaled(*s, r0.times, x[r0.at + k]);
        let second = plus_scaled(first, r1.times, x[r1.at + k]);
        let third = plus_scaled(second, r2.times, x[r2.at + k]);
        *s = plus_scaled(third, r3.times, x[r3.at + k]);
    }
}

// The rows of the four coefficients from coefficient j on, in all strands.
fn add_block(strands: usize, d: usize, j: usize, f: &[i32], x: &[u64], sums: &mut [u64])
    requires { Rows strands d (length f.now) (length x.now) (length sums.old) × (j + 4 ≤ d) }
    ensures { sums.new ≡ add_four strands d f.now (narrowed x.now) j sums.old }
{
    let n = d * strands;
    let r0 = row_of(n, f[j], j * strands);
    let r1 = row_of(n, f[j + 1], (j + 1) * strands);
    let r2 = row_of(n, f[j + 2], (j + 2) * strands);
    let r3 = row_of(n, f[j + 3], (j + 3) * strands);
    add_four(n, r0, r1, r2, r3, x, sums);
}

// The rows of all coefficients of f.
fn add_rows(strands: usize, d: usize, f: &[i32], x: &[u64], sums: &mut [u64])
    requires { Rows strands d (length f.now) (length x.now) (length sums.old) }
    ensures { sums.new ≡ add_rows strands d f.now (narrowed x.now) d sums.old }
{
    let n = d * strands;
    for i in 0..d / 4 {
        add_block(strands, d, 4 * i, f, x, sums);
    }
    for j in d / 4 * 4..d {
        add_row(n, row_of(n, f[j], j * strands), x, sums);
    }
}

// Adds the rows of f, x being what they read, modulo 2^32: in each strand the product of f with the strand of the element that is prepared at the front of x.
pub fn add_product(strands: u32, d: u32, f: &[i32], x: &[u64], sums: &mut [u64])
    ensures { Provided (Rows strands d (length f.now) (length x.now) (length sums.old))
        (sums.new ≡ add_rows strands d f.now (narrowed x.now) d sums.old) }
{
    let c = strands as usize;
    let n = d as usize;
    if c == 0 {
        return;
    }
    if c > ROWS {
        return;
    }
    if n > WIDTH {
        return;
    }
    if f.len() < n {
        return;
    }
    if x.len() < 3 * (n * c) {
        return;
    }
    if sums.len() < n * c {
        return;
    }
    add_rows(c, n, f, x, sums);
}
