// The prover's work in a whole opening, on slices, in every row of the key. The products of the commitment give c0 of round 1 on the way; in each round
// 2·(c0 + c2) is the claim, so that c2 follows from the claim and c0, and c1 from one inner product of the halves' sums. What there is for each row, the
// commitment, the claim and c_j of a round, is an item: an element for each row, one behind the other. Every function is safe for every input.
#![tactic(auto)]

ghost use Rattle.std.specs.Prelude.{◌≡◌, ◌+◌, ◌*◌, ◌%◌, ◌^◌, ◌<◌, ◌≤◌, length, get_or};
ghost use Rattle.protocol.specs.Basic.{Provided};
ghost use Rattle.protocol.specs.Layout.{item_cells};
ghost use Rattle.protocol.specs.Opening.{half_left};
ghost use Rattle.protocol.specs.Rows.{key_row};
ghost use Rattle.protocol.specs.Calls.{commit_refusal, round_refusal};
ghost use Rattle.residues.specs.Lists.{filled, spliced};
ghost use Rattle.residues.specs.Residues.{Residues};
ghost use Rattle.plain_products.specs.Rowwise.{row_places};
ghost use Rattle.round_products.specs.Items.{inner_item};
ghost use Rattle.opening_rounds.specs.Rounds.{sum_at, half, Halvables, middle_at, last_at, round_item, ItemsBegun, Continuing};

use modular::halves;
use product_sums::Shape;
use protocol::{ROWS_WIDTH, Residue, Settings};

// The first d numbers of a table of residues, each halved t times modulo q, written to the front of out where there is room for them.
fn write_halved(q: Residue, d: usize, t: u32, element: &[Residue], out: &mut [Residue])
    requires { d ≤ length element.now }
    ensures { Provided (d ≤ length out.old)
        (Provided (Halvables q d element.now) (out.new ≡ filled (λ k. half q ^ t * get_or element.now k 0 % q) d out.old))
        × Provided (length out.old < d) (out.new ≡ out.old) }
{
    if out.len() < d {
        return;
    }
    out[..d].copy_from_slice(&element[..d]);
    round_products::halve(q, d, t, out);
}

// The first n numbers of another table, added to those of out modulo q.
fn add_table(q: Residue, n: usize, y: &[Residue], out: &mut [Residue])
    requires { (n ≤ length y.now) × (n ≤ length out.old) }
    ensures { Provided (Residues q n 0 out.old × Residues q n 0 y.now) (out.new ≡ filled (sum_at q out.old y.now) n out.old) }
{
    for (k, z) in y[..n].iter().enumerate() {
        out[k] = residues::plus(q, out[k], *z);
    }
}

// The commitment in every row, and c0 of round 1 where there is room for it: the products of the first halves are taken once for both.
pub fn begin(
    settings: Settings,
    key: &[Residue],
    message: &[i32],
    commitments: &mut [Residue],
    rounds: &mut [Residue],
)
    ensures { Provided (commit_refusal settings key.now message.now ≡ 0)
        (ItemsBegun settings key.now message.now commitments.old rounds.old commitments.new rounds.new) }
{
    let n = sizes::item_cells(settings);
    if commitments.len() < n {
        return;
    }
    let all = sizes::left(settings, 0);
    let h = all / 2;
    let half = (h as usize) * (settings.degree as usize);
    if message.len() < half {
        return;
    }
    if key.len() < half {
        return;
    }
    let first = Shape {
        sums: false,
        modulus: settings.modulus,
        degree: settings.degree,
        elements: h,
        rows: settings.rows,
        stride: sizes::cells(settings),
    };
    products::inner_rows(first, message, key, commitments);
    write_halved(settings.modulus, n, 1, commitments, rounds);
    let mut second: [Residue; ROWS_WIDTH] = [0; ROWS_WIDTH];
    let rest = Shape {
        elements: all - h,
        ..first
    };
    products::inner_rows(rest, &message[half..], &key[half..], &mut second);
    add_table(settings.modulus, n, &second, commitments);
}

// half^(t + 1) times the inner product of the first halves in every row, or of the sums of the halves.
fn item(
    sums: bool,
    settings: Settings,
    t: u32,
    key: &[Residue],
    message: &[i32],
    out: &mut [Residue],
)
    ensures { Provided (round_refusal settings t key.now message.now ≡ 0)
        (Provided (item_cells settings ≤ length out.old)
        (out.new ≡ filled (row_places settings.degree
        (inner_item sums settings (half_left settings t) (half settings.modulus ^ (t + 1)) message.now (key_row settings key.now))) (item_cells settings) out.old)) }
{
    if t >= settings.depth {
        return;
    }
    let h = sizes::half_left(settings, t);
    round_products::items(sums, settings, h, t + 1, message, key, out);
}

// c0 of round t + 1 in every row.
pub fn first_item(settings: Settings, t: u32, key: &[Residue], message: &[i32], out: &mut [Residue])
    ensures { Provided (round_refusal settings t key.now message.now ≡ 0)
        (Provided (item_cells settings ≤ length out.old)
        (out.new ≡ filled (row_places settings.degree (round_item settings t key.now message.now 0)) (item_cells settings) out.old)) }
{
    item(false, settings, t, key, message, out);
}

// The middle item, in whose place the sum of the three stands: that less half of the claim.
fn write_middle(q: Residue, n: usize, claim: &[Residue], p: &mut [Residue])
    requires { (n ≤ length claim.now) × (n + n ≤ length p.old) }
    ensures { Provided (Residues q n n p.old
        × Halvables q n claim.now) (p.new ≡ spliced (middle_at q n claim.now p.old) n n p.old) }
{
    for (k, y) in claim[..n].iter().enumerate() {
        let x = p[n + k];
        p[n + k] = residues::minus(q, x, halves::halved(q, *y));
    }
}

// The last item, behind the middle one: half of the claim less the first.
fn write_last(q: Residue, n: usize, claim: &[Residue], p: &mut [Residue])
    requires { (n ≤ length claim.now) × (2 * n + n ≤ length p.old) }
    ensures { Provided (Residues q n 0 p.old
        × Halvables q n claim.now) (p.new ≡ spliced (last_at q claim.now p.old) (2 * n) n p.old) }
{
    for (k, y) in claim[..n].iter().enumerate() {
        let x = p[k];
        p[2 * n + k] = residues::minus(q, halves::halved(q, *y), x);
    }
}

// c1 and c2 of round t + 1 in every row, behind c0 with which p begins: c0 + c1 + c2 is the item of the halves' sums.
pub fn rest(
    settings: Settings,
    t: u32,
    key: &[Residue],
    message: &[i32],
    claim: &[Residue],
    p: &mut [Residue],
)
    ensures { Provided (Continuing settings t key.now message.now claim.now p.old)
        (p.new ≡ spliced (row_places settings.degree (round_item settings t key.now message.now 2)) (2 * item_cells settings) (item_cells settings)
        (spliced (row_places settings.degree (round_item settings t key.now message.now 1)) (item_cells settings) (item_cells settings) p.old)) }
{
    let q = settings.modulus;
    let n = sizes::item_cells(settings);
    if claim.len() < n {
        return;
    }
    if p.len() < 3 * n {
        return;
    }
    item(true, settings, t, key, message, &mut p[n..]);
    write_middle(q, n, claim, p);
    write_last(q, n, claim, p);
}
