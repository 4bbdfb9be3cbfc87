// Sums of products at degree 4, where rows are not worth preparing, of one row of a key and for a modulus of 32 bits. That the degree stands here as a number lets the
// compiler unroll it.
ghost use Rattle.std.specs.Prelude.{◌≡◌, List, ℕ, ◌*◌, ◌^◌, ◌<◌, ◌≤◌, length};
ghost use Rattle.protocol.specs.Basic.{Provided};
ghost use Rattle.protocol.specs.Element.{signed_at, residue_at};
ghost use Rattle.protocol.specs.Opening.{inner};
ghost use Rattle.half_sums.specs.Halves.{message_sums, key_sums, size_of, messages_of, keys_of, Elements, Halves};
ghost use Rattle.product_sums.specs.Sums.{Stands, Summable, Given, Zero};
ghost use Rattle.plain_products.specs.Sums.{Summed};

use product_sums::Sum;
use protocol::Residue;

// Adds the products of the first n elements of two tables.
pub(crate) fn add_elements(n: u32, f: &[i32], g: &[Residue], s: &mut [Sum])
    requires { (n * 4 ≤ length f.now) × (n * 4 ≤ length g.now) × (4 ≤ length s.old) }
    ensures { (q : ℕ) (t : List ℕ) (z : Summable q 4 n f.now g.now)
        → Provided ((q < 2 ^ 32) × Stands q 4 (inner 4 0 (signed_at 4 f.now) (residue_at 4 g.now)) 0 s.old t)
        (Stands q 4 (inner 4 n (signed_at 4 f.now) (residue_at 4 g.now)) (n * (4 * z.magnitude)) s.new t) }
{
    columns::add_table(n, f, g, s);
}

// Adds those of the sums of two tables' halves, which have h elements; m and k are room for one of each.
fn add_sums(
    q: Residue,
    h: u32,
    f: &[i32],
    g: &[Residue],
    m: &mut [i32],
    k: &mut [Residue],
    s: &mut [Sum],
)
    requires { Elements q 4 (2 * h) (length f.now) (length g.now) × (4 ≤ length s.old) × (4 ≤ length m.old) × (4 ≤ length k.old) }
    ensures { (t : List ℕ) → Provided (Halves q 4 h f.now g.now × (q < 2 ^ 32)
        × Stands q 4 (inner 4 0 (message_sums 4 h f.now) (key_sums q 4 h g.now)) 0 s.old t)
        (Stands q 4 (inner 4 h (message_sums 4 h f.now) (key_sums q 4 h g.now)) (h * (4 * 2 ^ 16)) s.new t) }
{
    let half = (h as usize) * 4;
    for i in 0..h {
        let at = (i as usize) * 4;
        half_sums::add_halves(q, 4, at, half + at, f, g, m, k);
        columns::add_product(4, m, k, s);
    }
}

// Either, over sums that are 0.
pub(crate) fn add_products(
    sums: bool,
    q: Residue,
    n: u32,
    f: &[i32],
    g: &[Residue],
    m: &mut [i32],
    k: &mut [Residue],
    s: &mut [Sum],
)
    requires { (0 < q) × (size_of sums 4 n ≤ length f.now) × (size_of sums 4 n ≤ length g.now) × (4 ≤ length m.old) × (4 ≤ length k.old) × (4 ≤ length s.old) }
    ensures { (d : ℕ) (t : List ℕ) → Provided ((d ≡ 4) × (q < 2 ^ 32) × Given sums q d n f.now g.now × Zero s.old × Zero t)
        (Summed q d (inner d n (messages_of sums d n f.now) (keys_of sums q d n g.now)) s.new t) }
{
    if sums {
        add_sums(q, n, f, g, m, k, s);
        return;
    }
    add_elements(n, f, g, s);
}
