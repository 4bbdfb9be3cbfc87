// Sums of products by rows, those of lower halves of residues in s and those of upper halves in t, in all strands of a woven key. A modulus of 32 bits has no upper halves.
#![tactic(auto)]

ghost use Rattle.std.specs.Prelude.{◌≡◌, List, ℕ, ◌+◌, ◌*◌, ◌<◌, ◌≤◌, length};
ghost use Rattle.protocol.specs.Basic.{Provided};
ghost use Rattle.protocol.specs.Element.{Element, width, plus, product, signed};
ghost use Rattle.protocol.specs.Opening.{inner};
ghost use Rattle.rows.specs.Rows.{woven, Prepared};
ghost use Rattle.product_sums.specs.Sums.{Stands, Zero, Addable, Rooms, Within};
ghost use Rattle.product_sums.specs.Shapes.{ShapeGiven, one_row, messages_in, keys_in};

use protocol::{ROWS, Residue, WIDTH};

// A sum of products, modulo 2^64.
pub type Sum = u64;

// How many sums there are at a small degree. Rooms are set to 0 first, so small ones are taken where they do.
pub const FEW: usize = 16;

// What is multiplied: the first elements of a table of whole numbers with those of each row of a key, or, where `sums` holds, the elements of the sums of their halves, which
// have that many. The rows of the key begin at the distance `stride`. `sums` is a bool as in the definitions and in the calls below, which an enum would have to be turned into.
#[derive(Clone, Copy)]
pub struct Shape {
    pub sums: bool,
    pub modulus: Residue,
    pub degree: u32,
    pub elements: u32,
    pub rows: u32,
    pub stride: usize,
}

impl Shape {
    // Two tables of n elements: one row.
    pub fn of_one_row(modulus: Residue, degree: u32, elements: u32) -> Shape
        ensures { result ≡ one_row modulus degree elements }
    {
        Shape {
            sums: false,
            modulus,
            degree,
            elements,
            rows: 1,
            stride: 0,
        }
    }
}

// Adds the products of f with the strands that are prepared in x, whose numbers are lost.
pub fn add_prepared(
    q: Residue,
    strands: u32,
    d: u32,
    f: &[i32],
    x: &mut [u64],
    s: &mut [Sum],
    t: &mut [Sum],
)
    ensures { (F G : ℕ → Element) (count c : ℕ) → Provided (Addable q strands d c f.now (length s.old) (length t.old)
        × Prepared q (d * strands) (woven strands G) x.old × Stands q (d * strands) (woven strands F) count s.old t.old)
        (Stands q (d * strands) (woven strands (λ r. plus (F r) (product d (signed f.now) (G r)))) (count + d * c) s.new t.new) }
{
    if (d as usize) > WIDTH {
        return;
    }
    if (strands as usize) > ROWS {
        return;
    }
    rows::add_product(strands, d, f, x, s);
    if q < 4294967296 {
        return;
    }
    joins::elements::upper_halves(3 * ((d as usize) * (strands as usize)), x);
    rows::add_product(strands, d, f, x, t);
}

// Adds the products of element i of f, or of the sum of its halves.
fn add_element(
    shape: Shape,
    i: u32,
    f: &[i32],
    g: &[Residue],
    m: &mut [i32],
    a: &mut [Residue],
    k: &mut [Residue],
    x: &mut [u64],
    s: &mut [Sum],
    t: &mut [Sum],
)
    requires { (shape.degree ≤ width) × (i < shape.elements) }
    ensures { (G : ℕ → List ℕ) (F : ℕ → Element) (count c : ℕ) → Provided (ShapeGiven shape f.now g.now G × Within shape.sums shape.degree shape.elements c f.now
        × Rooms shape.degree shape.rows (length m.old) (length a.old) (length k.old) (length x.old) (length s.old) (length t.old)
        × Stands shape.modulus (shape.degree * shape.rows) (woven shape.rows F) count s.old t.old)
        (Stands shape.modulus (shape.degree * shape.rows) (woven shape.rows (λ r. plus (F r) (product shape.degree (messages_in shape f.now i) (keys_in shape (G r) i))))
        (count + shape.degree * c) s.new t.new) }
{
    let Shape {
        sums,
        modulus,
        degree,
        elements,
        rows,
        stride,
    } = shape;
    strands::prepare(sums, modulus, degree, elements, i, rows, stride, g, a, k, x);
    let cells = degree as usize;
    let at = (i as usize) * cells;
    if sums {
        half_sums::add_message(cells, at, (elements as usize) * cells + at, f, m);
        add_prepared(modulus, rows, degree, m, x, s, t);
        return;
    }
    if f.len() < at {
        return;
    }
    add_prepared(modulus, rows, degree, &f[at..], x, s, t);
}

// Adds those of all elements, over sums that are 0.
pub fn add_elements(
    shape: Shape,
    f: &[i32],
    g: &[Residue],
    m: &mut [i32],
    a: &mut [Residue],
    k: &mut [Residue],
    x: &mut [u64],
    s: &mut [Sum],
    t: &mut [Sum],
)
    ensures { (G : ℕ → List ℕ) (c : ℕ) → Provided (ShapeGiven shape f.now g.now G × Within shape.sums shape.degree shape.elements c f.now
        × Rooms shape.degree shape.rows (length m.old) (length a.old) (length k.old) (length x.old) (length s.old) (length t.old)
        × Zero s.old × Zero t.old)
        (Stands shape.modulus (shape.degree * shape.rows) (woven shape.rows (λ r. inner shape.degree shape.elements (messages_in shape f.now) (keys_in shape (G r))))
        (shape.elements * (shape.degree * c)) s.new t.new) }
{
    if (shape.degree as usize) > WIDTH {
        return;
    }
    for i in 0..shape.elements {
        add_element(shape, i, f, g, m, a, k, x, s, t);
    }
}
