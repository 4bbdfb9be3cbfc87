// Elements and round polynomials in slices of exactly their lengths, and verdicts as numbers: what the calls for C and Rust share. Each public function is safe
// for every input, and says what it gives for settings that are allowed and slices that have their lengths.
#![tactic(auto)]

ghost use Rattle.std.specs.Prelude.{◌≡◌, ◌&&◌, ◌+◌, ◌*◌, ◌≤◌, length, get_or, take};
ghost use Rattle.protocol.specs.Answers.{said};
ghost use Rattle.protocol.specs.Basic.{Provided};
ghost use Rattle.protocol.specs.Element.{width, value_row, padded_signed};
ghost use Rattle.protocol.specs.Layout.{rows_most, rows_width, item_cells, polynomial_cells};
ghost use Rattle.protocol.specs.Refusal.{refusal_of};
ghost use Rattle.protocol.specs.Rows.{together};
ghost use Rattle.protocol.specs.Session.{verdict_number};
ghost use Rattle.protocol.specs.Settings.{settings_refusal};
ghost use Rattle.residues.specs.Lists.{spliced, spliced_rows};
ghost use Rattle.slices.specs.Slices.{lent, values_of, laid, placed};

use protocol::{Item, Polynomial, ROWS, ROWS_WIDTH, Refusal, Residue, Settings, Verdict, WIDTH};
use ranges::tests;
use ranges::tests::require;
use residues::elements;

// Refusals 3 to 6 and 16, then 7 where the slices that are lent beside have not their lengths.
#[tactic(auto, unfolding(protocol::specs::Basic::first, protocol::specs::Basic::unless, crate::specs::Slices::lent))]
pub fn refusal(settings: Settings, fits: bool) -> Result<(), Refusal>
    ensures { refusal_of result ≡ lent settings fits 0 }
{
    tests::allow(settings)?;
    require(fits, Refusal::Size)
}

// Copies d numbers of a table, from place `from` on, to another from place `at` on.
fn copy_row(d: usize, t: &[Residue], from: usize, at: usize, out: &mut [Residue])
    ensures { Provided ((from + d ≤ length t.now) × (at + d ≤ length out.old))
        (out.new ≡ spliced (λ k. get_or t.now (from + k) 0) at d out.old) }
{
    if t.len() < from {
        return;
    }
    residues::store(d, &t[from..], at, out);
}

// Writes the elements of a flat table to their rows by value.
fn place_rows(d: usize, rows: usize, t: &[Residue], out: &mut [Residue])
    ensures { Provided ((d ≤ width) × (rows ≤ rows_most) × (rows * d ≤ length t.now) × (length out.old ≡ rows_width))
        (out.new ≡ placed d rows t.now out.old) }
{
    if d > WIDTH || rows > ROWS {
        return;
    }
    for r in 0..rows {
        copy_row(d, t, r * d, r * WIDTH, out);
    }
}

// Writes the elements of the rows by value to a flat table from place `at` on. (Not one function with the last: what stays as it was differs, the places between the
// rows there, what is before and behind here.)
fn lay_rows(d: usize, rows: usize, a: &[Residue], at: usize, out: &mut [Residue])
    requires { at ≤ 2 * rows_width }
    ensures { Provided ((d ≤ width) × (rows ≤ rows_most) × (length a.now ≡ rows_width) × (at + rows * d ≤ length out.old))
        (out.new ≡ spliced_rows (λ r k. get_or (value_row a.now r) k 0) at d rows out.old) }
{
    if d > WIDTH || rows > ROWS {
        return;
    }
    for r in 0..rows {
        copy_row(d, a, r * WIDTH, at + r * d, out);
    }
}

// An element of residues of each row.
pub fn residues(settings: Settings, t: &[Residue]) -> Item
    ensures { Provided (settings_refusal settings ≡ 0) (Provided (length t.now ≡ item_cells settings) (result ≡ values_of settings t.now)) }
{
    let mut a: Item = [0; ROWS_WIDTH];
    place_rows(settings.degree as usize, settings.rows as usize, t, &mut a);
    a
}

// An element of whole numbers.
#[tactic(auto, using(crate::proofs::Elements::whole_signed))]
pub fn wholes(d: u32, t: &[i32]) -> [i32; WIDTH]
    ensures { Provided (d ≤ width) (Provided (length t.now ≡ d) (result ≡ padded_signed d t.now)) }
{
    elements::element_at(d, t, 0)
}

// Writes an element of each row to a slice of rows·d numbers.
pub fn store_residues(settings: Settings, a: Item, out: &mut [Residue])
    ensures { Provided (settings_refusal settings ≡ 0) (Provided (length out.old ≡ item_cells settings) (out.new ≡ together settings a)) }
{
    lay_rows(settings.degree as usize, settings.rows as usize, &a, 0, out);
}

pub fn store_wholes(d: u32, a: [i32; WIDTH], out: &mut [i32])
    ensures { Provided (d ≤ width) (Provided (length out.old ≡ d) (out.new ≡ take d a)) }
{
    residues::store(d as usize, &a, 0, out);
}

// Writes the three items of a round polynomial one after the other to a slice of 3·rows·d numbers.
pub fn store_polynomial(settings: Settings, p: &Polynomial, out: &mut [Residue])
    ensures { Provided (settings_refusal settings ≡ 0)
        (Provided (length out.old ≡ polynomial_cells settings) (out.new ≡ laid settings p.now)) }
{
    let d = settings.degree as usize;
    let rows = settings.rows as usize;
    let n = sizes::item_cells(settings);
    lay_rows(d, rows, &p[0], 0, out);
    lay_rows(d, rows, &p[1], n, out);
    lay_rows(d, rows, &p[2], 2 * n, out);
}

// A verdict as a number. (A conversion of the library's would have to stand in the crate of its type, whose numbers these are not.)
#[tactic(auto, unfolding(protocol::specs::Session::verdict_number))]
pub fn verdict_number(v: Verdict) -> u32
    ensures { result ≡ verdict_number (said v) }
{
    match v {
        Verdict::Holds => 1,
        Verdict::Accepted => 2,
        Verdict::Rejected => 3,
    }
}
