// The sum of w_i·G_i modulo q. Each number of w is reduced, and its residue is split into digits of 16 bits, which are small enough for sums of products; each
// digit makes an inner product of its own. Two digits are a residue where q has 32 bits, else four are.
ghost use Rattle.std.specs.Prelude.{◌≡◌, ◌*◌, ◌/◌, ◌%◌, ◌^◌, ◌<◌, ◌≤◌, eqb, pos, length, get_or};
ghost use Rattle.protocol.specs.Element.{modulo, padded};
ghost use Rattle.protocol.specs.Basic.{tabulate};
ghost use Rattle.protocol.specs.Judge as of;
ghost use Rattle.residues.specs.Lists.{filled};
ghost use Rattle.judge.specs.Digits.{digit, part_at, Vector};
ghost use Rattle.judge.specs.Scaling.{Ready, Reduced};
ghost use Rattle.judge.specs.Signs as specs;

use crate::scaling;
use crate::scaling::NARROW;
use modular::factors::Factor;
use protocol::{Residue, Settings, WIDTH};

// The most numbers that a vector has where the growth is within its limit.
const NUMBERS: usize = 1024;

// x modulo q; what is below q already is not divided.
fn remainder(q: Residue, x: u64) -> Residue
    requires { 0 < q }
    ensures { result ≡ x % q }
{
    if x < q {
        return x;
    }
    x % q
}

// x, or −(x + 1) where x is below zero: both have residues by one division.
fn folded(x: i64) -> u64
    ensures { result ≡ specs.folded x }
{
    if x < 0 { (-(x + 1)) as u64 } else { x as u64 }
}

// x modulo q, of a signed number.
fn residue(q: Residue, x: i64) -> Residue
    requires { 0 < q }
    ensures { result ≡ modulo q x }
{
    let m = remainder(q, folded(x));
    if x < 0 {
        return q - 1 - m;
    }
    m
}

// One digit of m: base 1 for the first, 2^16 for the second.
fn digit_of(base: u64, m: u64) -> i32
    requires { 0 < base }
    ensures { result ≡ pos (m / base % 65536) }
{
    (m / base % 65536) as i32
}

// Two digits of the numbers of w, from bit `shift` of their residues on, each in a table of its own.
fn split(q: Residue, shift: u32, w: &[i64], low: &mut [i32], high: &mut [i32])
    requires { (0 < q) × (shift < 64) × (length w.now ≤ length low.old) × (length w.now ≤ length high.old) }
    ensures { (low.new ≡ filled (λ p. pos (digit q (2 ^ shift) 65536 (get_or w.now p (pos 0)))) (length w.now) low.old)
        × (high.new ≡ filled (λ p. pos (digit q (2 ^ shift * 65536) 65536 (get_or w.now p (pos 0)))) (length w.now) high.old) }
{
    for (p, x) in w.iter().enumerate() {
        let m = residue(q, *x) >> shift;
        low[p] = digit_of(1, m);
        high[p] = digit_of(65536, m);
    }
}

// What the digits of 32 bits of w, from bit `shift` of their residues on, make of the key.
fn part(settings: Settings, shift: u32, key: &[Residue], w: &[i64]) -> [Residue; WIDTH]
    requires { Vector settings key.now w.now × (shift < 64) }
    ensures { result ≡ padded settings.degree (tabulate settings.degree (part_at settings (2 ^ shift) key.now w.now)) }
{
    let q = settings.modulus;
    let d = settings.degree;
    let n = sizes::left(settings, 0);
    let mut low = [0i32; NUMBERS];
    let mut high = [0i32; NUMBERS];
    split(q, shift, w, &mut low, &mut high);
    let mut sums = products::inner(q, d, n, &low, key);
    let upper = products::inner(q, d, n, &high, key);
    scaling::add_scaled(q, d as usize, 65536, &upper, &mut sums);
    sums
}

fn combination(settings: Settings, key: &[Residue], w: &[i64]) -> [Residue; WIDTH]
    requires { Vector settings key.now w.now }
    ensures { result ≡ padded settings.degree (tabulate settings.degree (of.combination settings key.now w.now)) }
{
    let q = settings.modulus;
    let mut sums = part(settings, 0, key, w);
    if q <= NARROW {
        return sums;
    }
    let upper = part(settings, 32, key, w);
    scaling::add_scaled(q, settings.degree as usize, 4294967296, &upper, &mut sums);
    sums
}

// Is c·x modulo q the number y.
fn scaled_is(q: Residue, c: u32, factor: Factor, x: Residue, y: Residue) -> bool
    requires { Ready q c factor × (x < q) }
    ensures { result ≡ eqb (c * x % q) y }
{
    scaling::times(q, c as u64, factor, x) == y
}

// Is c times the commitment the sum of w_i·G_i, in one row.
pub(crate) fn opens(
    settings: Settings,
    commitment: &[Residue],
    c: u32,
    key: &[Residue],
    w: &[i64],
) -> bool
    requires { Vector settings key.now w.now × (settings.degree ≤ length commitment.now) × Reduced settings.modulus settings.degree commitment.now }
    ensures { result ≡ of.opens settings key.now commitment.now c w.now }
{
    let sums = combination(settings, key, w);
    let q = settings.modulus;
    let d = settings.degree as usize;
    let factor = scaling::prepared(q, c as u64);
    for (k, x) in commitment[..d].iter().enumerate() {
        if !scaled_is(q, c, factor, *x, sums[k]) {
            return false;
        }
    }
    true
}
