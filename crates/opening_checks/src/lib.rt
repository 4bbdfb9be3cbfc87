// What the verifier checks in a whole opening, in every row: a round's equations with the next claims, and the end.
#![tactic(auto)]

ghost use Rattle.std.specs.Prelude.{◌≡◌, ◌&&◌, length};
ghost use Rattle.protocol.specs.Answers.{said};
ghost use Rattle.protocol.specs.Basic.{every, Provided};
ghost use Rattle.protocol.specs.Element.{signed, residue};
ghost use Rattle.protocol.specs.Rows.{key_row};
ghost use Rattle.protocol.specs.Session as session;
ghost use Rattle.protocol.specs.Transcript.{end_met};
ghost use Rattle.opening_checks.specs.Checks.{row_claim, RowsChecked, EndsRead};

use protocol::{Residue, Settings, Verdict};

// The equations of round t + 1 and the next claims, row after row: does the round hold in every row.
pub fn check_rows(
    settings: Settings,
    t: u32,
    e: u32,
    claims: &mut [Residue],
    rounds: &[Residue],
) -> bool
    ensures { RowsChecked settings t e claims.old rounds.now result claims.new }
{
    let d = settings.degree as usize;
    let mut met = true;
    for r in 0..settings.rows as usize {
        let at = r * d;
        let to = at + d;
        if claims.len() < to {
            return false;
        }
        if rounds.len() < at {
            return false;
        }
        let holds = equations::rounds::polynomial_holds(
            settings,
            t,
            &claims[at..to],
            &rounds[at..],
        );
        met = met & holds;
        equations::rounds::next_claim(settings, t, e, &rounds[at..], &mut claims[at..to]);
    }
    met
}

// Is the end met in every row, each with its own claim and its own row of the key, which is folded by all challenges.
fn ends_hold(settings: Settings, claims: &[Residue], last: &[i32], key: &[Residue]) -> bool
    ensures { Provided (EndsRead settings (length claims.now) (length last.now) key.now)
        (result ≡ every settings.rows (λ i. end_met settings (row_claim settings claims.now i) (signed last.now) (residue (key_row settings key.now i)))) }
{
    let cells = sizes::cells(settings);
    let d = settings.degree as usize;
    let mut met = true;
    let mut from: usize = 0;
    for r in 0..settings.rows as usize {
        let at = r * d;
        if key.len() - from < cells {
            return false;
        }
        if claims.len() < at {
            return false;
        }
        let to = from + cells;
        let holds = equations::end_holds(settings, &claims[at..], last, &key[from..to]);
        met = met & holds;
        from = to;
    }
    met
}

// What the verifier says once all turns are done, `holds` telling whether every round held in every row, with residues as numbers.
pub fn verdict(
    settings: Settings,
    holds: bool,
    claims: &[Residue],
    last: &[i32],
    key: &[Residue],
) -> Verdict
    ensures { Provided (EndsRead settings (length claims.now) (length last.now) key.now)
        (said result ≡ session.verdict (holds && every settings.rows (λ i. end_met settings (row_claim settings claims.now i) (signed last.now)
        (residue (key_row settings key.now i))))) }
{
    if !holds {
        return Verdict::Rejected;
    }
    if ends_hold(settings, claims, last, key) {
        Verdict::Accepted
    } else {
        Verdict::Rejected
    }
}
