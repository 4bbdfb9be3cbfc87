// The key folded by all challenges, as one sum of rotated elements (the law is key-turns of proofs/KeyTurns), and the end of a transcript by it.
#![tactic(auto)]

ghost use Rattle.std.specs.Prelude.{◌≡◌, ℕ, ◌+◌, ◌%◌, ◌^◌, ◌<◌, ◌≤◌, length, slice_index};
ghost use Rattle.protocol.specs.declared.Settings.{Settings};
ghost use Rattle.protocol.specs.Basic.{Provided};
ghost use Rattle.protocol.specs.Element.{signed};
ghost use Rattle.std.proofs.Common.{rules};
ghost use Rattle.protocol.specs.Layout.{width, exponent_count};
ghost use Rattle.protocol.specs.Opening.{key_after};
ghost use Rattle.protocol.specs.Nodes.{Alike};
ghost use Rattle.protocol.specs.Transcript.{end_met, folded_key};
ghost use Rattle.residues.specs.Lists.{spliced};
ghost use Rattle.residues.specs.Residues.{BothBelow};
ghost use Rattle.rotations.specs.Values.{plus_turned};
ghost use Rattle.folded_keys.specs.Given.{KeyGiven, EndGiven};
ghost use Rattle.folded_keys.specs.Turns.{OnCircle, Turned, Turning, ElementRead, Added, Summable, Summed};

use protocol::{Residue, Settings, WIDTH};
use ranges::tests::DEPTH_MOST;

// Room for the exponents of the largest key's elements, 2^8.
const ELEMENTS: usize = 256;

// y + e on a circle of c places, of exponents.
fn around(c: u32, y: u32, e: u32) -> u32
    ensures { Provided (BothBelow c y e) (result ≡ (y + e) % c) }
{
    let rest = c.wrapping_sub(e);
    if y < rest {
        return y.wrapping_add(e);
    }
    y - rest
}

// The exponents of the second half of 2m elements: those of the first half and e more, on a circle of c places.
fn second_half(c: u32, m: usize, e: u32, x: &mut [u32])
    requires { m + m ≤ length x.old }
    ensures { Provided (OnCircle c m e x.old) (x.new ≡ spliced (λ j. (slice_index x.old j + e) % c) m m x.old) }
{
    for j in 0..m {
        let y = x[j];
        x[m + j] = around(c, y, e);
    }
}

// The exponents of all elements: the challenges at the set bits of an index, added up. Returns how many they are.
fn turns(settings: Settings, challenges: &[u32], x: &mut [u32]) -> u32
    requires { (0 < settings.degree) × (settings.degree ≤ width) × (settings.depth ≤ 8) × (settings.depth ≤ length challenges.now) × (256 ≤ length x.old) }
    ensures { (result ≡ 2 ^ settings.depth)
        × Provided (slice_index x.old 0 ≡ 0) (Turned (exponent_count settings) settings.depth challenges.now settings.depth x.new) }
{
    let c = 2 * settings.degree;
    let depth = settings.depth;
    let mut m: u32 = 1;
    for s in 0..depth {
        let e = challenges[(depth - 1 - s) as usize] % c;
        second_half(c, m as usize, e, x);
        m = m + m;
    }
    m
}

// How turned elements are added up.
trait Adding {
    // what the sums are taken modulo
    ghost modulus: { Settings → ℕ };

    // Adds X^e times the element with which a part of a key begins.
    fn add(settings: Settings, e: u32, part: &[Residue], sums: &mut [u64])
        ensures { Provided (Turning settings (modulus settings) part.now sums.old)
            (sums.new ≡ spliced (plus_turned (modulus settings) settings.degree e part.now 0 sums.old) 0 settings.degree sums.old) };

    ghost positive: { (S : Settings) → 0 < S.modulus → 0 < modulus S };
}

// Modulo q, at each element.
struct Reduced;

impl Adding for Reduced {
    ghost modulus = { λ S. S.modulus };

    ghost positive = { λ S h. h };

    fn add(settings: Settings, e: u32, part: &[Residue], sums: &mut [u64]) {
        rotations::add_turned(settings.modulus, settings.degree, e, part, sums);
    }
}

// Modulo 2^64: the sums are reduced once all elements are added.
struct Gathered;

impl Adding for Gathered {
    ghost modulus = { λ S. 2 ^ 64 };

    ghost positive = { λ S h. Prim.search rules };

    fn add(settings: Settings, e: u32, part: &[Residue], sums: &mut [u64]) {
        rotations::gather_turned(settings.degree, e, part, sums);
    }
}

// Adds element i of a key, turned by its exponent.
fn add_element<A: Adding>(settings: Settings, i: u32, key: &[Residue], x: &[u32], sums: &mut [u64])
    ensures { Provided (ElementRead settings (A.modulus settings) i key.now sums.old)
        (Added (A.modulus settings) settings key.now x.now i sums.old sums.new) }
{
    let at = (i as usize) * (settings.degree as usize);
    if key.len() < at {
        return;
    }
    let e = x.get(i as usize).copied().unwrap_or(0);
    A::add(settings, e, &key[at..], sums);
}

// Adds up the first n elements of a key, each turned by its exponent.
fn add_elements<A: Adding>(settings: Settings, n: u32, key: &[Residue], x: &[u32], sums: &mut [u64])
    ensures { Provided (Summable settings n key.now sums.old) (Summed (A.modulus settings) settings key.now x.now n sums.new) }
{
    for i in 0..n {
        add_element::<A>(settings, i, key, x, sums);
    }
}

// The largest modulus at which the sum of 2^8 residues, with any signs, is at most 2^62 from 0: 2^54.
const GATHERED_MOST: Residue = 18014398509481984;

// The first element of the folded key, at the front of an array.
pub fn folded_key(settings: Settings, key: &[Residue], challenges: &[u32]) -> [Residue; WIDTH]
    ensures { Provided (KeyGiven settings key.now challenges.now)
        (Alike settings.degree result (key_after settings challenges.now settings.depth key.now)) }
{
    let mut sum: [Residue; WIDTH] = [0; WIDTH];
    if settings.degree == 0 {
        return sum;
    }
    if (settings.degree as usize) > WIDTH {
        return sum;
    }
    if settings.depth > DEPTH_MOST {
        return sum;
    }
    if challenges.len() < (settings.depth as usize) {
        return sum;
    }
    let mut x = [0u32; ELEMENTS];
    let n = turns(settings, challenges, &mut x);
    if settings.modulus <= GATHERED_MOST {
        add_elements::<Gathered>(settings, n, key, &x, &mut sum);
        // the number more, which nothing reads, lets `sum` begin at a multiple of sixteen bytes
        let none = [0u64; WIDTH + 1];
        let joint = joins::prepare(settings.modulus);
        return joins::elements::join_all(joint, settings.degree as usize, &sum, &none);
    }
    add_elements::<Reduced>(settings, n, key, &x, &mut sum);
    sum
}

// Is the end met, by a key that is folded by the challenges.
pub fn end_holds_for_key(
    settings: Settings,
    claim: &[Residue],
    f: &[i32],
    key: &[Residue],
    challenges: &[u32],
) -> bool
    ensures { Provided (EndGiven settings (length claim.now) (length f.now) key.now challenges.now)
        (result ≡ end_met settings claim.now (signed f.now) (folded_key settings key.now challenges.now)) }
{
    let g = folded_key(settings, key, challenges);
    equations::end_holds(settings, claim, f, &g)
}
