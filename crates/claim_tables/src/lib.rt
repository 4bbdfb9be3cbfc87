// The claims of a transcript, as part 7 of a text has them: after each round an element for each row. A claim follows from its round's elements and challenge alone.
// Every function is safe for every input; what it gives is said under a condition that the refusals ensure.
#![tactic(auto)]

ghost use Rattle.std.specs.Prelude.{◌≡◌, ◌+◌, ◌/◌, ◌%◌, ◌<◌, ◌≤◌, eqb, length, get_or};
ghost use Rattle.protocol.specs.Basic.{every, Provided};
ghost use Rattle.protocol.specs.Layout.{claim_items, claim_cells};
ghost use Rattle.protocol.specs.Nodes.{Alike};
ghost use Rattle.protocol.specs.Settings.{settings_refusal};
ghost use Rattle.protocol.specs.WrittenClaims.{claim_table, claim_written, claims_written};
ghost use Rattle.claim_tables.specs.Claims.{claimed, item_claim, items_most, Given};

use protocol::{ROWS, Residue, SLOTS, Settings, WIDTH};
use ranges::tests::DEPTH_MOST;

// The room for the claims of every transcript: `claims_room` of the definitions.
pub const ROOM: usize = ROWS * SLOTS * WIDTH;

// How many claims there are.
#[tactic(auto, using(sizes::proofs::Limits::allowed_depth, sizes::proofs::Limits::allowed_rows))]
fn items(settings: Settings) -> u32
    ensures { Provided (settings_refusal settings ≡ 0) (result ≡ claim_items settings) × (result ≤ claim_items settings) × (result ≤ items_most) }
{
    if settings.depth > DEPTH_MOST || (settings.rows as usize) > ROWS {
        return 0;
    }
    settings.rows * settings.depth
}

// The claim of item i: after round i / rows + 1, in row i % rows.
fn claim_of(settings: Settings, i: u32, rounds: &[Residue], challenges: &[u32]) -> [Residue; WIDTH]
    ensures { Provided (Given settings rounds.now × (i < claim_items settings))
        (Alike settings.degree result (item_claim settings rounds.now challenges.now i)) }
{
    let mut claim: [Residue; WIDTH] = [0; WIDTH];
    let rows = settings.rows;
    if rows == 0 {
        return claim;
    }
    let t = i / rows;
    let row = (i % rows) as usize;
    let start = equations::rounds::row_start(settings, rounds.len(), row);
    let e = challenges.get(t as usize).copied().unwrap_or(0);
    equations::rounds::next_claim(settings, t, e, &rounds[start..], &mut claim);
    claim
}

// The claims of a transcript with these rounds and challenges, written one behind the other.
pub fn store(settings: Settings, rounds: &[Residue], challenges: &[u32], claims: &mut [Residue])
    ensures { Provided (Given settings rounds.now) (Provided (length claims.old ≡ claim_cells settings)
        (claims.new ≡ claim_table settings (claimed rounds.now challenges.now))) }
{
    let d = settings.degree as usize;
    let count = items(settings);
    for i in 0..count {
        let claim = claim_of(settings, i, rounds, challenges);
        let at = (i as usize) * d;
        residues::store(d, &claim, at, claims);
    }
}

// Are the first n numbers of a row those that stand in a table from a place on.
fn same(n: usize, row: &[Residue], at: usize, table: &[Residue]) -> bool
    ensures { Provided ((n ≤ length row.now) × (at + n ≤ length table.now))
        (result ≡ every n (λ k. eqb (get_or table.now (at + k) 0) (get_or row.now k 0))) }
{
    if row.len() < n || table.len() < n || table.len() - n < at {
        return false;
    }
    table[at..at + n] == row[..n]
}

// Is the claim that is written for item i the one that its round gives.
fn item_written(
    settings: Settings,
    i: u32,
    rounds: &[Residue],
    challenges: &[u32],
    claims: &[Residue],
) -> bool
    requires { i < claim_items settings }
    ensures { Provided (Given settings rounds.now × (length claims.now ≡ claim_cells settings))
        (result ≡ claim_written settings (claimed rounds.now challenges.now) claims.now (i / settings.rows) (i % settings.rows)) }
{
    let d = settings.degree as usize;
    let claim = claim_of(settings, i, rounds, challenges);
    let at = (i as usize) * d;
    same(d, &claim, at, claims)
}

// Is every claim that is written beside a transcript with these rounds and challenges the one that they give.
pub fn written(
    settings: Settings,
    rounds: &[Residue],
    challenges: &[u32],
    claims: &[Residue],
) -> bool
    ensures { Provided (Given settings rounds.now) (Provided (length claims.now ≡ claim_cells settings)
        (result ≡ claims_written settings (claimed rounds.now challenges.now) claims.now)) }
{
    let total = items(settings);
    (0..total).all(|i| item_written(settings, i, rounds, challenges, claims))
}
