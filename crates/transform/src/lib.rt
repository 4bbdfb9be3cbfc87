// Inner products modulo 12289 by the transform. Sixteen elements of either table are transformed side by side, their products are added up place by place, and the
// sums come back once. What is transformed of a message serves every row of a key. Every function is safe for every input.
#![tactic(auto)]

ghost use Rattle.std.specs.Prelude.{◌≡◌, ℕ, ◌+◌, ◌-◌, ◌*◌, ◌/◌, ◌%◌, ◌^◌, ◌<◌, ◌≤◌, length, get_or, slice_index, unsigned_abs};
ghost use Rattle.algebra.specs.Integers.{ofℤ};
ghost use Rattle.protocol.specs.Basic.{Provided, tabulate};
ghost use Rattle.protocol.specs.Element.{Element, width, plus, padded};
ghost use Rattle.protocol.specs.Element as element;
ghost use Rattle.protocol.specs.Opening.{inner};
ghost use Rattle.powers.specs.Powers.{K, res, Below};
ghost use Rattle.transform.specs.Strands.{strands, Room, Filled, Values, MessagePlaced, ResiduesPlaced, Stands, Added};
ghost use Rattle.transform.specs.Steps.{Stands16, Written, with_products, total, gathered, Multiple};

use protocol::{Residue, WIDTH};

// How many elements are transformed together, and room for them.
pub const STRANDS: usize = 16;

pub const ROOM: usize = STRANDS * WIDTH;

// A number below 4·12289 that stands for x, where x is at most 2^16 from 0: 6·12289 makes it positive.
fn reduced(x: i32) -> u16
    ensures { (result < 49156) × Provided (unsigned_abs x ≤ 2 ^ 16) (res result ≡ ofℤ K x) }
{
    let t = (((x as i64) + 4295041030) as u64 % 262144) as u32;
    let part = (t * 5 >> 16) as u16;
    (t - (part as u32) * 12289) as u16
}

// A number that may be placed: a number of 16 bits stands for it.
trait Placed: Copy {
    ghost stands: { Self → ℕ → Type 0 };

    fn number(self) -> u16
        ensures { stands self result };
}

impl Placed for i32 {
    ghost stands = { Stands16 };

    fn number(self) -> u16 {
        reduced(self)
    }
}

impl Placed for Residue {
    ghost stands = { λ x v. v ≡ x % 2 ^ 16 };

    fn number(self) -> u16 {
        (self % 65536) as u16
    }
}

// The first d numbers of a table, to strand l.
fn write<T: Placed>(d: usize, l: usize, t: &[T], x: &mut [u16])
    requires { (l < strands) × (d ≤ length t.now) × (d * strands ≤ length x.old) }
    ensures { (z : T) → Written (λ k. T.stands (get_or t.now k z)) l d x.old x.new }
{
    for (k, y) in t[..d].iter().enumerate() {
        x[k * STRANDS + l] = y.number();
    }
}

// The same where there are so many, and room for them.
fn place<T: Placed>(d: usize, l: usize, t: &[T], x: &mut [u16])
    ensures { Provided ((l < strands) × (d ≤ length t.now) × (d * strands ≤ length x.old)) ((z : T) → Written (λ k. T.stands (get_or t.now k z)) l d x.old x.new) }
{
    if l >= STRANDS {
        return;
    }
    if t.len() < d {
        return;
    }
    if x.len() / STRANDS < d {
        return;
    }
    write(d, l, t, x);
}

// An element of whole numbers, to strand l of a room.
pub fn place_message(d: usize, l: usize, f: &[i32], x: &mut [u16])
    ensures { (D : ℕ) (F : ℕ → Element) → Provided (MessagePlaced D d l f.now F x.old) (Filled D (l + 1) F x.new) }
{
    place(d, l, f, x);
}

// The same for residues.
pub fn place_residues(d: usize, l: usize, g: &[Residue], y: &mut [u16])
    ensures { (D : ℕ) (G : ℕ → Element) → Provided (ResiduesPlaced D d l g.now G y.old) (Filled D (l + 1) G y.new) }
{
    place(d, l, g, y);
}

// The transform of sixteen elements.
pub fn send(level: u32, x: &mut [u16])
    ensures { (F : ℕ → Element) → Provided ((level ≤ 7) × Filled level strands F x.old) (Values level F x.new) }
{
    levels::forward(level, x);
}

// The residue of a number below 4·12289.
fn least(x: u16) -> u32
    ensures { (result < 65536) × Provided (x < 49156) (result ≡ x % 12289) }
{
    let y = if x >= 24578 { x - 24578 } else { x };
    (if y >= 12289 { y - 12289 } else { y }) as u32
}

// x and y place by place.
fn add_products(x: &[u16], y: &[u16], sums: &mut [u32])
    requires { (length sums.old ≤ length x.now) × (length sums.old ≤ length y.now) }
    ensures { Provided (Below 49156 x.now × Below 49156 y.now) (sums.new ≡ with_products x.now y.now sums.old) }
{
    for (j, s) in sums.iter_mut().enumerate() {
        *s = s.wrapping_add(least(x[j]) * least(y[j]));
    }
}

// The products of sixteen pairs of elements, added to sums. Those of x come transformed, and stay; y is used up.
pub fn add_batch(level: u32, x: &[u16], y: &mut [u16], sums: &mut [u32])
    ensures { (F G : ℕ → Element) (H : Element) (count : ℕ) → Provided (Added level F G H count x.now y.old sums.old)
        (Room level y.new × Stands level (plus H (inner (2 ^ level) 16 F G)) (count + 1) sums.new) }
{
    if x.len() < sums.len() {
        return;
    }
    if y.len() < sums.len() {
        return;
    }
    send(level, y);
    add_products(x, y, sums);
}

// The sixteen sums of one place, added up.
fn added(s: &[u32], at: usize) -> u16
    requires { at + strands ≤ length s.now }
    ensures { result ≡ total s.now at strands % 12289 }
{
    let mut sum: u64 = 0;
    for x in &s[at..at + STRANDS] {
        sum += u64::from(*x);
    }
    (sum % 12289) as u16
}

// The same for each place of out.
fn gather(sums: &[u32], out: &mut [u16])
    requires { length out.old * strands ≤ length sums.now }
    ensures { out.new ≡ gathered sums.now out.old }
{
    for (k, x) in out.iter_mut().enumerate() {
        *x = added(sums, k * STRANDS);
    }
}

// The way back: out stands for the element 2^level times.
fn bring_back(level: u32, sums: &[u32], out: &mut [u16])
    requires { length out.old * strands ≤ length sums.now }
    ensures { (F : Element) (count : ℕ) → Provided ((level ≤ 7) × (length out.old ≡ 2 ^ level) × Stands level F count sums.now)
        (Multiple level F out.new) }
{
    gather(sums, out);
    levels::backward(level, out);
}

// x·c modulo 12289.
fn scaled(x: u16, c: u64) -> Residue
    requires { c ≤ 12289 }
    ensures { result ≡ x * c % 12289 }
{
    u64::from(x) * c % 12289
}

// The first d numbers of r, divided by d: 12289 − 12288/d is the inverse of d.
fn divided(d: usize, r: &[u16; WIDTH]) -> [Residue; WIDTH]
    requires { (0 < d) × (d ≤ width) }
    ensures { result ≡ padded d (tabulate d (λ k. slice_index r.now k * (12289 - 12288 / d) % 12289)) }
{
    let mut a = [0u64; WIDTH];
    let c = 12289 - 12288 / (d as u64);
    let front = &mut a[..d];
    for (k, x) in front.iter_mut().enumerate() {
        *x = scaled(r[k], c);
    }
    a
}

// The element that the sums stand for.
pub fn finish(level: u32, d: usize, sums: &[u32]) -> [Residue; WIDTH]
    ensures { (F : Element) (count : ℕ) → Provided ((level ≤ 7) × (d ≡ 2 ^ level) × Stands level F count sums.now)
        (result ≡ padded d (element.reduced 12289 d F)) }
{
    if d == 0 {
        return [0u64; WIDTH];
    }
    if d > WIDTH {
        return [0u64; WIDTH];
    }
    if sums.len() / STRANDS < d {
        return [0u64; WIDTH];
    }
    let mut r = [0u16; WIDTH];
    bring_back(level, sums, &mut r[..d]);
    divided(d, &r)
}
