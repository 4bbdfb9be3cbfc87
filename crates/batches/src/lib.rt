// Inner products modulo 12289 by the transform, sixteen elements at a time: of two tables, or of the sums of their halves. A message is transformed once for all
// rows of a key.
#![tactic(auto)]

ghost use Rattle.std.specs.Prelude.{◌≡◌, ℕ, ◌+◌, ◌*◌, ◌^◌, ◌<◌, ◌≤◌, pos, length};
ghost use Rattle.protocol.specs.Basic.{Provided};
ghost use Rattle.protocol.specs.Element.{Element, width, reduced, padded};
ghost use Rattle.protocol.specs.Opening as opening;
ghost use Rattle.powers.specs.Powers.{Below};
ghost use Rattle.transform.specs.Strands.{Room, Filled, Values, Stands};
ghost use Rattle.half_sums.specs.Halves.{size_of, messages_of, keys_of};
ghost use Rattle.batches.specs.Batches.{Zero, Suits, MessageGiven, KeyGiven, Ready};

use protocol::{Residue, TRANSFORM_MODULUS, WIDTH};
use transform::{ROOM, STRANDS};

// The level of a degree where the transform is the quicker way; 0 below degree 32, and where the elements do not come by sixteen.
pub fn level(q: Residue, d: u32, n: u32) -> u32
    ensures { Provided (0 < result) (Suits q d n result) }
{
    if q != TRANSFORM_MODULUS {
        return 0;
    }
    if n % 16 != 0 {
        return 0;
    }
    if n > 256 {
        return 0;
    }
    match d {
        32 => 5,
        64 => 6,
        128 => 7,
        _ => 0,
    }
}

// Element i of a message, or of the sum of its halves, to strand l; m is room for it.
fn put_message(
    sums: bool,
    d: usize,
    n: usize,
    i: usize,
    l: usize,
    f: &[i32],
    m: &mut [i32],
    x: &mut [u16],
)
    requires { (i < n) × (d ≤ width) × (size_of sums d n ≤ length f.now) × (length m.old ≡ width) }
    ensures { (D : ℕ) (F : ℕ → Element) → Provided (MessageGiven sums d n f.now × (d ≡ 2 ^ D) × (l < 16) × (F l ≡ messages_of sums d n f.now i) × Filled D l F x.old)
        (Filled D (l + 1) F x.new) }
{
    let at = i * d;
    if sums {
        half_sums::add_message(d, at, n * d + at, f, m);
        transform::place_message(d, l, m, x);
    } else {
        transform::place_message(d, l, &f[at..], x);
    }
}

// Sixteen elements of it, from element `from` on, each to its strand.
fn fill_message(sums: bool, d: usize, n: usize, from: usize, f: &[i32], x: &mut [u16])
    requires { (from + 16 ≤ n) × (d ≤ width) × (size_of sums d n ≤ length f.now) }
    ensures { (D : ℕ) → Provided (MessageGiven sums d n f.now × (d ≡ 2 ^ D) × Room D x.old)
        (Filled D 16 (λ l. messages_of sums d n f.now (from + l)) x.new) }
{
    let mut m = [0i32; WIDTH];
    for l in 0..STRANDS {
        put_message(sums, d, n, from + l, l, f, &mut m, x);
    }
}

// The same of a key.
fn put_key(
    sums: bool,
    d: usize,
    n: usize,
    i: usize,
    l: usize,
    g: &[Residue],
    k: &mut [Residue],
    y: &mut [u16],
)
    requires { (i < n) × (d ≤ width) × (size_of sums d n ≤ length g.now) × (length k.old ≡ width) }
    ensures { (D : ℕ) (G : ℕ → Element) → Provided (KeyGiven sums d n g.now × (d ≡ 2 ^ D) × (l < 16) × (G l ≡ keys_of sums 12289 d n g.now i) × Filled D l G y.old)
        (Filled D (l + 1) G y.new) }
{
    let at = i * d;
    if sums {
        half_sums::add_key(TRANSFORM_MODULUS, d, at, n * d + at, g, k);
        transform::place_residues(d, l, k, y);
    } else {
        transform::place_residues(d, l, &g[at..], y);
    }
}

fn fill_key(sums: bool, d: usize, n: usize, from: usize, g: &[Residue], y: &mut [u16])
    requires { (from + 16 ≤ n) × (d ≤ width) × (size_of sums d n ≤ length g.now) }
    ensures { (D : ℕ) → Provided (KeyGiven sums d n g.now × (d ≡ 2 ^ D) × Room D y.old)
        (Filled D 16 (λ l. keys_of sums 12289 d n g.now (from + l)) y.new) }
{
    let mut k = [0u64; WIDTH];
    for l in 0..STRANDS {
        put_key(sums, d, n, from + l, l, g, &mut k, y);
    }
}

// A batch of a message, transformed.
fn send_batch(sums: bool, level: u32, d: usize, n: usize, from: usize, f: &[i32], x: &mut [u16])
    requires { (from + 16 ≤ n) × (d ≤ width) × (size_of sums d n ≤ length f.now) }
    ensures { Provided (MessageGiven sums d n f.now × (d ≡ 2 ^ level) × (level ≤ 7) × Room level x.old)
        (Values level (λ l. messages_of sums d n f.now (from + l)) x.new) }
{
    fill_message(sums, d, n, from, f, x);
    transform::send(level, x);
}

// All of them, one behind the other. Each batch is lent by its place: what chunks hold when they were lent one after the other is not known to a proof.
fn send_batches(sums: bool, level: u32, d: usize, n: usize, f: &[i32], x: &mut [u16])
    requires { (n ≤ 256) × (d ≤ width) × (size_of sums d n ≤ length f.now) × (n * d ≤ length x.old) }
    ensures { Provided (Suits 12289 d n level × MessageGiven sums d n f.now × Below 49156 x.old)
        (Ready level d n (messages_of sums d n f.now) x.new) }
{
    let cells = d * STRANDS;
    for t in 0..n / STRANDS {
        let at = t * cells;
        let to = at + cells;
        send_batch(sums, level, d, n, t * STRANDS, f, &mut x[at..to]);
    }
}

// How many numbers a table has, of n elements or of twice as many.
fn size(sums: bool, d: usize, n: usize) -> usize
    requires { (n ≤ 256) × (d ≤ width) }
    ensures { result ≡ size_of sums d n }
{
    let cells = n * d;
    if sums {
        return 2 * cells;
    }
    cells
}

// The n elements of a message, or of the sum of its halves, transformed: what an inner product with any row of a key needs of them. It takes room for n·d numbers.
pub fn prepare(sums: bool, level: u32, d: usize, n: usize, f: &[i32], x: &mut [u16])
    ensures { Provided (Suits 12289 d n level × MessageGiven sums d n f.now × Below 49156 x.old × (n * d ≤ length x.old))
        (Ready level d n (messages_of sums d n f.now) x.new) }
{
    if n > 256 {
        return;
    }
    if d > WIDTH {
        return;
    }
    if f.len() < size(sums, d, n) {
        return;
    }
    if x.len() < n * d {
        return;
    }
    send_batches(sums, level, d, n, f, x);
}

// Adds the products of n elements, sixteen at a time, and brings the sums back. The room y and the sums have sixteen numbers for each coefficient.
fn sum_batches(
    sums: bool,
    level: u32,
    d: usize,
    n: usize,
    x: &[u16],
    g: &[Residue],
    y: &mut [u16],
    s: &mut [u32],
) -> [Residue; WIDTH]
    requires { (n ≤ 256) × (d ≤ width) × (n * d ≤ length x.now) × (size_of sums d n ≤ length g.now) }
    ensures { (F : ℕ → Element) → Provided (Suits 12289 d n level × Ready level d n F x.now × KeyGiven sums d n g.now × Room level y.old
        × Stands level (λ _. pos 0) 0 s.old)
        (result ≡ padded d (reduced 12289 d (opening.inner d n F (keys_of sums 12289 d n g.now)))) }
{
    let cells = d * STRANDS;
    for t in 0..n / STRANDS {
        let at = t * cells;
        let to = at + cells;
        fill_key(sums, d, n, t * STRANDS, g, y);
        transform::add_batch(level, &x[at..to], y, s);
    }
    transform::finish(level, d, s)
}

// The same with as much of larger rooms as the degree asks for.
fn inner_in(
    sums: bool,
    level: u32,
    d: usize,
    n: usize,
    x: &[u16],
    g: &[Residue],
    y: &mut [u16],
    s: &mut [u32],
) -> [Residue; WIDTH]
    requires { (n ≤ 256) × (d ≤ width) × (n * d ≤ length x.now) × (size_of sums d n ≤ length g.now) × (d * 16 ≤ length y.old) × (d * 16 ≤ length s.old) }
    ensures { (F : ℕ → Element) → Provided (Suits 12289 d n level × Ready level d n F x.now × KeyGiven sums d n g.now × Zero y.old × Zero s.old)
        (result ≡ padded d (reduced 12289 d (opening.inner d n F (keys_of sums 12289 d n g.now)))) }
{
    let cells = d * STRANDS;
    sum_batches(sums, level, d, n, x, g, &mut y[..cells], &mut s[..cells])
}

// The inner product of n elements that are prepared with n of a key, or with the sums of its halves, which have n elements.
pub fn inner(
    sums: bool,
    level: u32,
    d: usize,
    n: usize,
    x: &[u16],
    g: &[Residue],
) -> [Residue; WIDTH]
    ensures { (F : ℕ → Element) → Provided (Suits 12289 d n level × Ready level d n F x.now × (n * d ≤ length x.now) × KeyGiven sums d n g.now)
        (result ≡ padded d (reduced 12289 d (opening.inner d n F (keys_of sums 12289 d n g.now)))) }
{
    if n > 256 {
        return [0u64; WIDTH];
    }
    if d > WIDTH {
        return [0u64; WIDTH];
    }
    if x.len() < n * d {
        return [0u64; WIDTH];
    }
    if g.len() < size(sums, d, n) {
        return [0u64; WIDTH];
    }
    let mut y = [0u16; ROOM];
    let mut s = [0u32; ROOM];
    inner_in(sums, level, d, n, x, g, &mut y, &mut s)
}
