// Inner products of elements of whole numbers with elements of residues, modulo q, with all rows of a key, by whichever way is the quicker: coefficient by coefficient, or by
// the transform.
#![tactic(auto)]

ghost use Rattle.std.specs.Prelude.{◌≡◌, List, ℕ, ◌*◌, ◌^◌, ◌≤◌, ℤ, length};
ghost use Rattle.protocol.specs.Basic.{Provided};
ghost use Rattle.protocol.specs.Element.{reduced, padded, signed_at, residue_at};
ghost use Rattle.protocol.specs.Opening as opening;
ghost use Rattle.batches.specs.Batches.{Ready};
ghost use Rattle.product_sums.specs.Sums.{Summable};
ghost use Rattle.product_sums.specs.Shapes.{ShapeGiven, messages_in};
ghost use Rattle.plain_products.specs.Shapes.{ShapeWritten};
ghost use Rattle.products.specs.Transformed.{TransformGiven, TransformWritten};

use product_sums::Shape;
use protocol::{Residue, WIDTH};
use strands::further;

// Room for a table of 256 elements, of the largest degree, and for a short one. The four numbers more, which nothing reads, are eight bytes: with them the rooms that share
// its place on the stack begin at a multiple of sixteen, where a row of four strands takes a fifth less time.
const TABLE: usize = 256 * WIDTH + 4;

const SHORT_TABLE: usize = 64 * WIDTH;

// The inner products modulo 12289 by the transform of a level, for which the message is prepared in x.
fn write_rows(shape: Shape, level: u32, x: &[u16], g: &[Residue], out: &mut [Residue])
    ensures { (f : List ℤ) (G : ℕ → List ℕ) → Provided (TransformGiven shape level f g.now G × (shape.rows * shape.degree ≤ length out.old)
        × Ready level shape.degree shape.elements (messages_in shape f) x.now × (shape.elements * shape.degree ≤ length x.now))
        (TransformWritten shape f G out.old out.new) }
{
    let cells = shape.degree as usize;
    let mut from: usize = 0;
    let mut at: usize = 0;
    for _ in 0..shape.rows {
        if out.len() - at < cells {
            return;
        }
        let element = batches::inner(
            shape.sums,
            level,
            cells,
            shape.elements as usize,
            x,
            &g[from..],
        );
        residues::store(cells, &element, 0, &mut out[at..]);
        from = further(from, shape.stride, g.len());
        at += cells;
    }
}

// The same: what the transform needs of f is worked out once for all rows, in X numbers that are set to 0.
fn send_rows<const X: usize>(
    shape: Shape,
    level: u32,
    f: &[i32],
    g: &[Residue],
    out: &mut [Residue],
)
    requires { (shape.elements * shape.degree ≤ X) × (X ≤ 2 ^ 16) }
    ensures { (G : ℕ → List ℕ) → Provided (TransformGiven shape level f.now g.now G × (shape.rows * shape.degree ≤ length out.old)) (TransformWritten shape f.now G out.old out.new) }
{
    let mut x = [0u16; X];
    batches::prepare(
        shape.sums,
        level,
        shape.degree as usize,
        shape.elements as usize,
        f,
        &mut x,
    );
    write_rows(shape, level, &x, g, out);
}

// The same with as much room as it takes: a short table takes less, since all of it is set to 0 first.
fn transformed_rows(shape: Shape, level: u32, f: &[i32], g: &[Residue], out: &mut [Residue])
    ensures { (G : ℕ → List ℕ) → Provided (TransformGiven shape level f.now g.now G × (shape.rows * shape.degree ≤ length out.old)) (TransformWritten shape f.now G out.old out.new) }
{
    let cells = (shape.elements as usize) * (shape.degree as usize);
    if cells <= SHORT_TABLE {
        send_rows::<SHORT_TABLE>(shape, level, f, g, out);
    } else if cells <= TABLE {
        send_rows::<TABLE>(shape, level, f, g, out);
    }
}

// The inner product of f with every row of g, as the shape says, modulo q: an element for each row, one behind the other.
pub fn inner_rows(shape: Shape, f: &[i32], g: &[Residue], out: &mut [Residue])
    ensures { (G : ℕ → List ℕ) → Provided (ShapeGiven shape f.now g.now G × (shape.rows * shape.degree ≤ length out.old)) (ShapeWritten shape f.now G out.old out.new) }
{
    let level = batches::level(shape.modulus, shape.degree, shape.elements);
    if level == 0 {
        plain_products::inner_rows(shape, f, g, out);
        return;
    }
    transformed_rows(shape, level, f, g, out);
}

// The same for one row.
pub fn inner(q: Residue, d: u32, n: u32, f: &[i32], g: &[Residue]) -> [Residue; WIDTH]
    ensures { Provided (Summable q d n f.now g.now) (result ≡ padded d (reduced q d (opening.inner d n (signed_at d f.now) (residue_at d g.now)))) }
{
    let mut a = [0u64; WIDTH];
    inner_rows(Shape::of_one_row(q, d, n), f, g, &mut a);
    a
}
