// Inner products of messages and keys in every row, of halves of them and of the sums of halves, times a power of half, and the round polynomial that they make. What
// there is for each row is an item: an element for each row, one behind the other. Every public function is safe for every input; what it gives is said by a definition
// under a condition that the refusals ensure.
#![tactic(auto)]

ghost use Rattle.std.specs.Prelude.{◌≡◌, List, ℕ, ◌*◌, ◌%◌, ◌^◌, ◌<◌, ◌≤◌, length, get_or};
ghost use Rattle.protocol.specs.Basic.{Provided};
ghost use Rattle.protocol.specs.Layout.{item_cells};
ghost use Rattle.protocol.specs.Calls.{round_refusal};
ghost use Rattle.residues.specs.Lists.{filled};
ghost use Rattle.plain_products.specs.Rowwise.{row_places};
ghost use Rattle.round_products.specs.Sums.{half, Halvables, less_both};
ghost use Rattle.round_products.specs.Items.{inner_item, ItemsGiven, Sent};

use modular::halves;
use product_sums::Shape;
use protocol::{Residue, Settings};

// The first n numbers of a table of residues, each halved t times modulo q.
pub fn halve(q: Residue, n: usize, t: u32, p: &mut [Residue])
    ensures { Provided (n ≤ length p.old)
        (Provided (Halvables q n p.old) (p.new ≡ filled (λ k. half q ^ t * get_or p.old k 0 % q) n p.old)) }
{
    if p.len() < n {
        return;
    }
    for x in &mut p[..n] {
        *x = halves::halved_times(q, t, *x);
    }
}

// half^t·⟨m, G⟩ modulo q of the first h elements in every row, or of the sums of halves that have h elements.
pub fn items(
    sums: bool,
    settings: Settings,
    h: u32,
    t: u32,
    message: &[i32],
    key: &[Residue],
    out: &mut [Residue],
)
    ensures { (G : ℕ → List ℕ) → Provided (ItemsGiven sums settings h message.now key.now G × (item_cells settings ≤ length out.old))
        (out.new ≡ filled (row_places settings.degree (inner_item sums settings h (half settings.modulus ^ t) message.now G)) (item_cells settings) out.old) }
{
    let shape = Shape {
        sums,
        modulus: settings.modulus,
        degree: settings.degree,
        elements: h,
        rows: settings.rows,
        stride: sizes::cells(settings),
    };
    products::inner_rows(shape, message, key, out);
    halve(settings.modulus, sizes::item_cells(settings), t, out);
}

// x − a − b modulo q, of residues
fn minus_both(q: Residue, x: Residue, a: Residue, b: Residue) -> Residue
    ensures { Provided ((x < q) × (a < q) × (b < q)) (result ≡ less_both q x a b) }
{
    residues::minus(q, residues::minus(q, x, a), b)
}

// The same for the first n numbers of tables.
fn difference(q: Residue, n: usize, a: &[Residue], b: &[Residue], x: &mut [Residue])
    requires { (n ≤ length a.now) × (n ≤ length b.now) × (n ≤ length x.old) }
    ensures { Provided ((k : ℕ) → k < n → (get_or x.old k 0 < q) × (get_or a.now k 0 < q) × (get_or b.now k 0 < q))
        (x.new ≡ filled (λ k. less_both q (get_or x.old k 0) (get_or a.now k 0) (get_or b.now k 0)) n x.old) }
{
    for (k, y) in x[..n].iter_mut().enumerate() {
        *y = minus_both(q, *y, a[k], b[k]);
    }
}

// The three items of the round polynomial of round t + 1. The middle one is what the product of the sums has more than the other two, so that a round takes three
// inner products.
pub fn polynomial(
    settings: Settings,
    t: u32,
    message: &[i32],
    key: &[Residue],
    c0: &mut [Residue],
    c1: &mut [Residue],
    c2: &mut [Residue],
)
    ensures { Provided (round_refusal settings t key.now message.now ≡ 0)
        (Provided ((item_cells settings ≤ length c0.old) × (item_cells settings ≤ length c1.old) × (item_cells settings ≤ length c2.old))
        (Sent settings t key.now message.now c0.old c1.old c2.old c0.new c1.new c2.new)) }
{
    if t >= settings.depth {
        return;
    }
    let n = sizes::item_cells(settings);
    if c0.len() < n {
        return;
    }
    if c1.len() < n {
        return;
    }
    if c2.len() < n {
        return;
    }
    let h = sizes::half_left(settings, t);
    let half = (h as usize) * (settings.degree as usize);
    if message.len() < half {
        return;
    }
    if key.len() < half {
        return;
    }
    items(false, settings, h, t + 1, message, key, c0);
    items(
        false,
        settings,
        h,
        t + 1,
        &message[half..],
        &key[half..],
        c2,
    );
    items(true, settings, h, t + 1, message, key, c1);
    difference(settings.modulus, n, c0, c2, c1);
}
