// Inner products of elements of whole numbers with elements of residues, modulo q, coefficient by coefficient, with all rows of a key at once. Products are summed as they
// are, in numbers of 64 bits, and reduced once: a caller sees elements of residues.
#![tactic(auto)]

mod columnwise;

ghost use Rattle.std.specs.Prelude.{◌≡◌, List, ℕ, ◌+◌, ◌*◌, ◌<◌, ◌≤◌, length};
ghost use Rattle.protocol.specs.Basic.{Provided};
ghost use Rattle.protocol.specs.Element.{Element, width, reduced, padded, signed_at, residue_at};
ghost use Rattle.protocol.specs.Layout.{rows_most, rows_width};
ghost use Rattle.protocol.specs.Opening as opening;
ghost use Rattle.residues.specs.Lists.{filled};
ghost use Rattle.modular.specs.Factors.{Modulus};
ghost use Rattle.half_sums.specs.Halves.{size_of};
ghost use Rattle.rows.specs.Rows.{woven};
ghost use Rattle.product_sums.specs.Sums.{Summable, Zero, Rooms};
ghost use Rattle.product_sums.specs.Shapes.{ShapeGiven};
ghost use Rattle.plain_products.specs.Rowwise.{row_places};
ghost use Rattle.plain_products.specs.Sums.{Summed};
ghost use Rattle.plain_products.specs.Shapes.{Inside, inner_in, ShapeWritten};

use product_sums::{FEW, Shape, Sum};
use protocol::{ROWS, ROWS_WIDTH, Residue, WIDTH};

const THRICE_FEW: usize = 3 * FEW;

const THRICE_WIDTH: usize = 3 * WIDTH;

const THRICE_ROWS_WIDTH: usize = 3 * ROWS_WIDTH;

// Sums of the products of n elements, in each strand, over sums that are 0, whichever way is the quicker; m, a, k and x are rooms.
fn sum_products(
    shape: Shape,
    f: &[i32],
    g: &[Residue],
    m: &mut [i32],
    a: &mut [Residue],
    k: &mut [Residue],
    x: &mut [u64],
    s: &mut [Sum],
    t: &mut [Sum],
)
    requires { (shape.degree ≤ width) × (shape.rows ≤ rows_most) × Inside shape (length f.now) (length g.now) × (0 < shape.modulus)
        × Rooms shape.degree shape.rows (length m.old) (length a.old) (length k.old) (length x.old) (length s.old) (length t.old) }
    ensures { (G : ℕ → List ℕ) → Provided (ShapeGiven shape f.now g.now G × Zero s.old × Zero t.old)
        (Summed shape.modulus (shape.degree * shape.rows) (woven shape.rows (λ r. inner_in shape f.now (G r))) s.new t.new) }
{
    let Shape {
        sums,
        modulus,
        degree,
        elements,
        rows,
        ..
    } = shape;
    if degree == 4 && rows == 1 && modulus < 4294967296 {
        columnwise::add_products(sums, modulus, elements, f, g, m, a, s);
        return;
    }
    product_sums::add_elements(shape, f, g, m, a, k, x, s, t);
}

// The elements that the sums of all rows stand for, one behind the other.
fn write_rows(q: Residue, d: u32, rows: u32, s: &[Sum], t: &[Sum], out: &mut [Residue])
    ensures { (F : ℕ → Element) → Provided (Modulus q × (d ≤ width) × (rows ≤ rows_most) × (d * rows ≤ length s.now) × (d * rows ≤ length t.now) × (rows * d ≤ length out.old)
        × Summed q (d * rows) (woven rows F) s.now t.now)
        (out.new ≡ filled (row_places d (λ r. reduced q d (F r))) (rows * d) out.old) }
{
    let joint = joins::prepare(q);
    let cells = d as usize;
    let mut at: usize = 0;
    for r in 0..rows as usize {
        if out.len() - at < cells {
            return;
        }
        joins::elements::join_strand(joint, rows as usize, r, cells, s, t, &mut out[at..]);
        at += cells;
    }
}

// The rooms are arrays of their own: where each begins on the stack decides how quick rows of four strands are.
// The inner products of all rows, with room for N numbers of an element, for the C of all strands, and for the X that are prepared of them.
fn inner_with<const N: usize, const C: usize, const X: usize>(
    shape: Shape,
    f: &[i32],
    g: &[Residue],
    out: &mut [Residue],
)
    requires { (shape.degree ≤ N) × (N ≤ width) × (shape.degree * shape.rows ≤ C) × (C ≤ rows_width) × (3 * (shape.degree * shape.rows) ≤ X) × (X ≤ 3 * rows_width)
        × (shape.rows ≤ rows_most) × Inside shape (length f.now) (length g.now) × (0 < shape.modulus) }
    ensures { (G : ℕ → List ℕ) → Provided (ShapeGiven shape f.now g.now G × (shape.rows * shape.degree ≤ length out.old)) (ShapeWritten shape f.now G out.old out.new) }
{
    let mut m = [0i32; N];
    let mut a = [0u64; N];
    let mut k = [0u64; C];
    let mut x = [0u64; X];
    let mut s = [0u64; C];
    let mut t = [0u64; C];
    sum_products(shape, f, g, &mut m, &mut a, &mut k, &mut x, &mut s, &mut t);
    write_rows(shape.modulus, shape.degree, shape.rows, &s, &t, out);
}

// How many numbers a table has; batches, on which nothing here stands, has the same for its own checks.
fn size(shape: Shape) -> usize
    requires { shape.degree ≤ width }
    ensures { result ≡ size_of shape.sums shape.degree shape.elements }
{
    let cells = (shape.elements as usize) * (shape.degree as usize);
    if shape.sums {
        return 2 * cells;
    }
    cells
}

// The inner product of f with every row of g, as the shape says, modulo q: an element for each row, one behind the other.
pub fn inner_rows(shape: Shape, f: &[i32], g: &[Residue], out: &mut [Residue])
    ensures { (G : ℕ → List ℕ) → Provided (ShapeGiven shape f.now g.now G × (shape.rows * shape.degree ≤ length out.old)) (ShapeWritten shape f.now G out.old out.new) }
{
    if shape.modulus == 0 {
        return;
    }
    let d = shape.degree as usize;
    let rows = shape.rows as usize;
    if d > WIDTH {
        return;
    }
    if rows > ROWS {
        return;
    }
    let long = size(shape);
    if f.len() < long {
        return;
    }
    if g.len() < long {
        return;
    }
    let cells = d * rows;
    if cells <= FEW && d <= FEW {
        inner_with::<FEW, FEW, THRICE_FEW>(shape, f, g, out);
    } else if cells <= WIDTH {
        inner_with::<WIDTH, WIDTH, THRICE_WIDTH>(shape, f, g, out);
    } else {
        inner_with::<WIDTH, ROWS_WIDTH, THRICE_ROWS_WIDTH>(shape, f, g, out);
    }
}

// The same for one row, as products has it over its own rows.
pub fn inner(q: Residue, d: u32, n: u32, f: &[i32], g: &[Residue]) -> [Residue; WIDTH]
    ensures { Provided (Summable q d n f.now g.now) (result ≡ padded d (reduced q d (opening.inner d n (signed_at d f.now) (residue_at d g.now)))) }
{
    let mut a = [0u64; WIDTH];
    inner_rows(Shape::of_one_row(q, d, n), f, g, &mut a);
    a
}
