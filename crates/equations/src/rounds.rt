// The round polynomials of one row of a flat table: those of a transcript, round after round, or of a tree, node after node. The table is lent from the row's first
// element on, and no element is copied.
ghost use Rattle.std.specs.Prelude.{◌<◌, ◌≤◌, ◌≡◌, length};
ghost use Rattle.protocol.specs.Basic.{Provided};
ghost use Rattle.protocol.specs.Layout.{item_of};
ghost use Rattle.protocol.specs.Settings.{settings_refusal};
ghost use Rattle.protocol.specs.Transcript.{round_holds, next_claim};
ghost use Rattle.protocol.specs.Nodes.{Alike};
ghost use Rattle.equations.specs.Given.{RoundRead, ClaimRead};
ghost use Rattle.equations.specs.Items.{row_start, row_element};

use protocol::{ROWS, Residue, Settings, WIDTH};

// Where the part of a table of n numbers begins that begins with row i. A table with no items, that of a transcript of depth 0, has no row: there it is the end.
pub fn row_start(settings: Settings, n: usize, i: usize) -> usize
    ensures { Provided (settings_refusal settings ≡ 0) (Provided (i < settings.rows) (result ≡ row_start settings n i)) × (result ≤ n) }
{
    let d = settings.degree as usize;
    if d > WIDTH {
        return n;
    }
    if i >= ROWS {
        return n;
    }
    let at = i * d;
    if at > n {
        return n;
    }
    at
}

// Does the round of polynomial k hold.
pub fn polynomial_holds(settings: Settings, k: u32, claim: &[Residue], rounds: &[Residue]) -> bool
    ensures { Provided (RoundRead settings k (length claim.now) (length rounds.now))
        (result ≡ round_holds settings claim.now (row_element settings rounds.now (item_of k 0)) (row_element settings rounds.now (item_of k 2))) }
{
    let n = sizes::item_cells(settings);
    let at = sizes::polynomial_at(settings, k);
    let last = at + 2 * n;
    if rounds.len() < last {
        return false;
    }
    crate::round_holds(settings, claim, &rounds[at..], &rounds[last..])
}

// The claim after that round by the challenge e, written to the front of `claim`. What else `claim` holds is left free.
pub fn next_claim(settings: Settings, k: u32, e: u32, rounds: &[Residue], claim: &mut [Residue])
    ensures { Provided (ClaimRead settings k (length claim.old) rounds.now)
        (Alike settings.degree claim.new
        (next_claim settings e (row_element settings rounds.now (item_of k 0)) (row_element settings rounds.now (item_of k 1))
        (row_element settings rounds.now (item_of k 2)))) }
{
    let n = sizes::item_cells(settings);
    let at = sizes::polynomial_at(settings, k);
    let second = at + n;
    let third = at + 2 * n;
    if rounds.len() < third {
        return;
    }
    rotations::value(
        settings.modulus,
        settings.degree,
        e,
        &rounds[at..],
        &rounds[second..],
        &rounds[third..],
        claim,
    );
}
