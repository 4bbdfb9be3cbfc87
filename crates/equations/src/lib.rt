// The verifier's equations: a round, the claim after it, and the end. Every function is safe for every input; what it gives is said for
// settings that refusals 3 to 6 and 16 let pass.
#![tactic(auto)]

pub mod rounds;

ghost use Rattle.std.specs.Prelude.{◌≡◌, ◌+◌, ◌*◌, ◌%◌, ◌<◌, ◌≤◌, eqb, length};
ghost use Rattle.protocol.specs.Basic.{Provided};
ghost use Rattle.protocol.specs.Element.{padded, residue, signed};
ghost use Rattle.protocol.specs.Transcript.{round_holds, next_claim, final_bounded, end_holds, end_met};
ghost use Rattle.protocol.specs.Settings.{settings_refusal};
ghost use Rattle.residues.specs.Residues.{BothBelow};
ghost use Rattle.equations.specs.Given.{Evaluable, ElementsGiven, ElementReduced, FinalGiven};

use protocol::{Residue, Settings, WIDTH};

// 2·(x + y) modulo q, of residues.
fn doubled(q: Residue, x: Residue, y: Residue) -> Residue
    ensures { Provided (BothBelow q x y) (result ≡ 2 * (x + y) % q) }
{
    let s = residues::plus(q, x, y);
    residues::plus(q, s, s)
}

// Is 2·(x + y) modulo q the number z. Residues are not divided; other numbers are reduced before they are added, since their sum may have 65 bits.
fn doubled_is(q: Residue, x: Residue, y: Residue, z: Residue) -> bool
    requires { 0 < q }
    ensures { result ≡ eqb (2 * (x + y) % q) z }
{
    if (x < q) & (y < q) {
        return doubled(q, x, y) == z;
    }
    doubled(q, x % q, y % q) == z
}

// Does a round hold.
pub fn round_holds(settings: Settings, claim: &[Residue], c0: &[Residue], c2: &[Residue]) -> bool
    ensures { Provided (ElementsGiven settings (length claim.now) (length c0.now) (length c2.now))
        (result ≡ round_holds settings claim.now (residue c0.now) (residue c2.now)) }
{
    let q = settings.modulus;
    let d = settings.degree as usize;
    if q == 0 {
        return false;
    }
    if claim.len() < d {
        return false;
    }
    if c0.len() < d {
        return false;
    }
    if c2.len() < d {
        return false;
    }
    (0..d).all(|k| doubled_is(q, c0[k], c2[k], claim[k]))
}

// The claim after a round: c0 + r·c1 + r²·c2, r = X^e.
pub fn next_claim(
    settings: Settings,
    e: u32,
    c0: &[Residue],
    c1: &[Residue],
    c2: &[Residue],
) -> [Residue; WIDTH]
    ensures { Provided (ElementsGiven settings (length c0.now) (length c1.now) (length c2.now))
        (Provided (Evaluable settings c0.now c1.now c2.now)
        (result ≡ padded settings.degree (next_claim settings e (residue c0.now) (residue c1.now) (residue c2.now)))) }
{
    let mut claim: [Residue; WIDTH] = [0; WIDTH];
    rotations::value(settings.modulus, settings.degree, e, c0, c1, c2, &mut claim);
    claim
}

// Has the final element no coefficient beyond ±n·B.
fn final_bounded(settings: Settings, f: &[i32]) -> bool
    requires { settings.degree ≤ length f.now }
    ensures { Provided (settings_refusal settings ≡ 0) (result ≡ final_bounded settings (signed f.now)) }
{
    let d = settings.degree as usize;
    let limit = sizes::left_bound(settings, settings.depth);
    f[..d].iter().all(|x| x.unsigned_abs() <= limit)
}

// Is the claim half^L·f·g, where f has no coefficient beyond ±n·B: half^L is 1/2^L.
fn equation_met(settings: Settings, claim: &[Residue], f: &[i32], g: &[Residue]) -> bool
    requires { (settings.degree ≤ length claim.now) × (settings.degree ≤ length f.now) × (settings.degree ≤ length g.now) }
    ensures { Provided (FinalGiven settings (signed f.now) g.now) (result ≡ end_holds settings claim.now (signed f.now) (residue g.now)) }
{
    let power = sizes::left(settings, 0);
    multiples::product_is(settings.modulus, settings.degree, f, g, power, claim)
}

// Is the end met, by an element of residues: the bound first, then the equation.
pub fn end_holds(settings: Settings, claim: &[Residue], f: &[i32], g: &[Residue]) -> bool
    ensures { Provided (ElementsGiven settings (length claim.now) (length f.now) (length g.now))
        (Provided (ElementReduced settings g.now) (result ≡ end_met settings claim.now (signed f.now) (residue g.now))) }
{
    let d = settings.degree as usize;
    if claim.len() < d {
        return false;
    }
    if f.len() < d {
        return false;
    }
    if g.len() < d {
        return false;
    }
    if !final_bounded(settings, f) {
        return false;
    }
    equation_met(settings, claim, f, g)
}
