// The equations of all rows. The claims are as they are passed by value, for each row WIDTH places; the elements of a round polynomial stand `step` places from each
// other: d in a flat table, WIDTH by value. All are lent here, so that no element is copied.
#![tactic(auto)]

ghost use Rattle.std.specs.Prelude.{◌≡◌, ◌*◌, ◌<◌, ◌≤◌, length, get_or};
ghost use Rattle.protocol.specs.Basic.{every, Provided};
ghost use Rattle.protocol.specs.Element.{width, value_row, residue, signed, zeros};
ghost use Rattle.protocol.specs.Layout.{rows_most, rows_width, key_cells};
ghost use Rattle.protocol.specs.Rows.{key_row, at_rows};
ghost use Rattle.protocol.specs.Transcript.{round_holds, next_claim, end_met, folded_key};
ghost use Rattle.protocol.specs.Settings.{settings_refusal};
ghost use Rattle.residues.specs.Lists.{spliced};
ghost use Rattle.verifier_refusals.specs.Lent.{lent_rows};
ghost use Rattle.row_equations.specs.Given.{RoundGiven, RowsEvaluable, EndsGiven};

use protocol::{ROWS, ROWS_WIDTH, Residue, Settings, WIDTH};

// Does the round hold in row i.
fn row_holds(
    settings: Settings,
    i: usize,
    claims: &[Residue],
    step: usize,
    c0: &[Residue],
    c2: &[Residue],
) -> bool
    requires { (i < settings.rows) × (settings.rows ≤ rows_most) × (step ≤ width) × (length claims.now ≡ rows_width) × (settings.rows * step ≤ length c0.now) × (settings.rows * step ≤ length c2.now) }
    ensures { Provided (RoundGiven settings step (length c0.now) (length c2.now))
        (result ≡ round_holds settings (value_row claims.now i) (residue (value_row (lent_rows settings step c0.now) i))
        (residue (value_row (lent_rows settings step c2.now) i))) }
{
    let from = i * WIDTH;
    let at = i * step;
    equations::round_holds(settings, &claims[from..], &c0[at..], &c2[at..])
}

// Does a round hold in every row.
pub fn round_holds(
    settings: Settings,
    claims: &[Residue],
    step: usize,
    c0: &[Residue],
    c2: &[Residue],
) -> bool
    ensures { Provided (RoundGiven settings step (length c0.now) (length c2.now))
        (Provided (length claims.now ≡ rows_width)
        (result ≡ every settings.rows (λ i. round_holds settings (value_row claims.now i) (residue (value_row (lent_rows settings step c0.now) i))
        (residue (value_row (lent_rows settings step c2.now) i))))) }
{
    let n = settings.rows as usize;
    if n > ROWS || step > WIDTH || claims.len() != ROWS_WIDTH {
        return false;
    }
    let all = n * step;
    if c0.len() < all || c2.len() < all {
        return false;
    }
    (0..n).all(|i| row_holds(settings, i, claims, step, c0, c2))
}

// Writes the claim of row i after a round: c0 + r·c1 + r²·c2, r = X^e.
fn next_row(
    settings: Settings,
    e: u32,
    i: usize,
    step: usize,
    c0: &[Residue],
    c1: &[Residue],
    c2: &[Residue],
    claims: &mut [Residue],
)
    requires { (i < rows_most) × (step ≤ width) × (i * step ≤ length c0.now) × (i * step ≤ length c1.now) × (i * step ≤ length c2.now) × (length claims.old ≡ rows_width) }
    ensures { Provided (RowsEvaluable settings step c0.now c1.now c2.now × (i < settings.rows))
        (claims.new ≡ spliced (λ k. get_or (next_claim settings e (residue (value_row (lent_rows settings step c0.now) i))
        (residue (value_row (lent_rows settings step c1.now) i)) (residue (value_row (lent_rows settings step c2.now) i))) k 0)
        (i * width) settings.degree claims.old) }
{
    let to = i * WIDTH;
    let at = i * step;
    rotations::value(
        settings.modulus,
        settings.degree,
        e,
        &c0[at..],
        &c1[at..],
        &c2[at..],
        &mut claims[to..],
    );
}

// Writes those of all rows over zeros.
fn next_rows(
    settings: Settings,
    e: u32,
    step: usize,
    c0: &[Residue],
    c1: &[Residue],
    c2: &[Residue],
    claims: &mut [Residue],
)
    requires { (settings.rows ≤ rows_most) × (step ≤ width) × (settings.rows * step ≤ length c0.now) × (settings.rows * step ≤ length c1.now) × (settings.rows * step ≤ length c2.now) × (length claims.old ≡ rows_width) }
    ensures { Provided (RowsEvaluable settings step c0.now c1.now c2.now × (claims.old ≡ zeros rows_width))
        (claims.new ≡ at_rows settings (λ i. next_claim settings e (residue (value_row (lent_rows settings step c0.now) i))
        (residue (value_row (lent_rows settings step c1.now) i)) (residue (value_row (lent_rows settings step c2.now) i)))) }
{
    for i in 0..settings.rows as usize {
        next_row(settings, e, i, step, c0, c1, c2, claims);
    }
}

// Writes the claims after a round, whatever stood there.
#[tactic(auto, using(sizes::proofs::Limits::allowed_rows), unfolding(protocol::specs::Element::zeros))]
pub fn next_claims(
    settings: Settings,
    e: u32,
    step: usize,
    c0: &[Residue],
    c1: &[Residue],
    c2: &[Residue],
    claims: &mut [Residue],
)
    ensures { Provided (RowsEvaluable settings step c0.now c1.now c2.now × (length claims.old ≡ rows_width))
        (claims.new ≡ at_rows settings (λ i. next_claim settings e (residue (value_row (lent_rows settings step c0.now) i))
        (residue (value_row (lent_rows settings step c1.now) i)) (residue (value_row (lent_rows settings step c2.now) i)))) }
{
    let n = settings.rows as usize;
    if n > ROWS || step > WIDTH || claims.len() != ROWS_WIDTH {
        return;
    }
    let all = n * step;
    if c0.len() < all || c1.len() < all || c2.len() < all {
        return;
    }
    claims.fill(0);
    next_rows(settings, e, step, c0, c1, c2, claims);
}

// Is the end met in row i, by its part of the key.
fn row_ends(
    settings: Settings,
    i: usize,
    claims: &[Residue],
    last: &[i32],
    key: &[Residue],
    challenges: &[u32],
) -> bool
    requires { (settings_refusal settings ≡ 0) × (i < settings.rows) × (settings.rows ≤ rows_most) × (length claims.now ≡ rows_width) × (length key.now ≡ key_cells settings) }
    ensures { Provided (EndsGiven settings (length claims.now) (length last.now) key.now challenges.now)
        (result ≡ end_met settings (value_row claims.now i) (signed last.now) (folded_key settings (key_row settings key.now i) challenges.now)) }
{
    let at = i * WIDTH;
    let n = sizes::cells(settings);
    let from = i * n;
    let to = from + n;
    folded_keys::end_holds_for_key(settings, &claims[at..], last, &key[from..to], challenges)
}

fn rows_end(
    settings: Settings,
    claims: &[Residue],
    last: &[i32],
    key: &[Residue],
    challenges: &[u32],
) -> bool
    requires { (settings_refusal settings ≡ 0) × (settings.rows ≤ rows_most) × (length claims.now ≡ rows_width) × (length key.now ≡ key_cells settings) }
    ensures { Provided (EndsGiven settings (length claims.now) (length last.now) key.now challenges.now)
        (result ≡ every settings.rows (λ i. end_met settings (value_row claims.now i) (signed last.now)
        (folded_key settings (key_row settings key.now i) challenges.now))) }
{
    let n = settings.rows as usize;
    (0..n).all(|i| row_ends(settings, i, claims, last, key, challenges))
}

// Is the end met in every row, each with its own part of the key.
#[tactic(auto, using(sizes::proofs::Limits::allowed_rows))]
pub fn ends_hold(
    settings: Settings,
    claims: &[Residue],
    last: &[i32],
    key: &[Residue],
    challenges: &[u32],
) -> bool
    ensures { Provided (EndsGiven settings (length claims.now) (length last.now) key.now challenges.now)
        (result ≡ every settings.rows (λ i. end_met settings (value_row claims.now i) (signed last.now)
        (folded_key settings (key_row settings key.now i) challenges.now))) }
{
    if ranges::tests::allow(settings).is_err() {
        return false;
    }
    if claims.len() != ROWS_WIDTH || key.len() != sizes::key_cells(settings) {
        return false;
    }
    rows_end(settings, claims, last, key, challenges)
}
