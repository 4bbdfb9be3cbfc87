// The refusals of the verifier's session and of the check of a transcript. Each function is its call's list of tests, as in `prover_refusals`.
#![tactic(auto)]

pub mod session;
pub mod transcript;

ghost use Rattle.std.specs.Prelude.{◌≡◌, ◌+◌, ◌*◌, ◌<◌, ◌≤◌, ltb, length, get_or};
ghost use Rattle.protocol.specs.Basic.{every, Provided};
ghost use Rattle.protocol.specs.Element.{zeros};
ghost use Rattle.protocol.specs.Layout.{width, rows_most, rows_width};
ghost use Rattle.protocol.specs.Session as session;
ghost use Rattle.protocol.specs.Settings.{settings_refusal, residue_rows};
ghost use Rattle.verifier_refusals.specs.Lent.{record_of, lent_rows, RowsLent};

use protocol::{ROWS, Residue, SLOTS, Settings, WIDTH};
use ranges::tests;

// A record (PROTOCOL 4.1) beside its claims. These are many numbers, and are lent.
#[derive(Clone, Copy)]
pub struct Progress {
    pub settings: Settings,
    pub done: u32,
    pub challenges: [u32; SLOTS],
    pub closed: bool,
}

// That of the closed record of zeros.
#[tactic(auto, unfolding(protocol::specs::Session::blank, protocol::specs::Element::zeros, protocol::specs::Layout::slots))]
pub fn blank() -> Progress
    ensures { record_of result (zeros rows_width) ≡ session.blank }
{
    Progress {
        settings: Settings {
            degree: 0,
            depth: 0,
            modulus: 0,
            bound: 0,
            rows: 0,
        },
        done: 0,
        challenges: [0u32; SLOTS],
        closed: true,
    }
}

// 8 of row i of elements that stand `step` places from each other.
fn row_below(settings: Settings, step: usize, a: &[Residue], i: usize) -> bool
    requires { (i < settings.rows) × (settings.rows ≤ rows_most) × (step ≤ width) }
    ensures { Provided ((settings_refusal settings ≡ 0) × RowsLent settings step (length a.now))
        (result ≡ every settings.degree (λ k. ltb (get_or a.now (i * step + k) 0) settings.modulus)) }
{
    let d = settings.degree as usize;
    let at = i * step;
    if d > WIDTH || a.len() < at + d {
        return false;
    }
    tests::all_below_wide(settings.modulus, &a[at..at + d])
}

// 8 of every row: d places from each other in a flat table, WIDTH by value.
pub fn lent_below(settings: Settings, step: usize, a: &[Residue]) -> bool
    ensures { Provided (settings_refusal settings ≡ 0) (Provided (RowsLent settings step (length a.now))
        (result ≡ residue_rows settings (lent_rows settings step a.now))) }
{
    let n = settings.rows as usize;
    if n > ROWS || step > WIDTH {
        return false;
    }
    (0..n).all(|i| row_below(settings, step, a, i))
}

// 8 of what is passed by value for each row. Places past the rows are not read.
pub fn rows_below(settings: Settings, a: &[Residue]) -> bool
    ensures { Provided (settings_refusal settings ≡ 0) (Provided (length a.now ≡ rows_width) (result ≡ residue_rows settings a.now)) }
{
    tests::rows_below(settings.modulus, settings.degree, settings.rows, a)
}
