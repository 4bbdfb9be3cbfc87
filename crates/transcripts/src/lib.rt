// The check of a whole transcript: its refusal, and then row by row a core on slices that copies no element of the tables. The parts of a transcript are parameters one
// by one, as the calls take them: a contract over a struct that holds references has to name each part as `parts.entry.rounds.now`, which is no plainer.
#![tactic(auto)]

ghost use Rattle.std.specs.Prelude.{true, ◌≡◌, ◌<◌, length};
ghost use Rattle.protocol.specs.Answers.{as_checked, as_verdict};
ghost use Rattle.protocol.specs.Basic.{every, Provided};
ghost use Rattle.protocol.specs.Layout.{item_cells, round_items};
ghost use Rattle.protocol.specs.Transcript as transcript;
ghost use Rattle.protocol.specs.Rows.{key_row, all_accepted};
ghost use Rattle.protocol.specs.Session.{verdict_number};
ghost use Rattle.protocol.specs.Calls.{check_answer, check_number};
ghost use Rattle.equations.specs.Items.{row_table};
ghost use Rattle.transcripts.specs.Given.{RoundsGiven, RowGiven, Sized, TranscriptGiven, Held, lent_row, row_at};

use protocol::{Item, Refusal, Residue, Settings, Verdict, WIDTH};
use residues::elements;

// Does every round of a row hold, from the claim before the first. Where every round does, `claim` is then the claim after the last.
fn rounds_hold(
    settings: Settings,
    rounds: &[Residue],
    challenges: &[u32],
    claim: &mut [Residue],
) -> bool
    ensures { Provided (RoundsGiven settings rounds.now (length claim.old))
        (Held settings (row_table settings (round_items settings) rounds.now) challenges.now claim.old claim.new result) }
{
    for t in 0..settings.depth {
        if !equations::rounds::polynomial_holds(settings, t, claim, rounds) {
            return false;
        }
        let e = challenges.get(t as usize).copied().unwrap_or(0);
        equations::rounds::next_claim(settings, t, e, rounds, claim);
    }
    true
}

// Is a row accepted, by the parts of the tables that begin with it and by its part of the key: every round holds, and the end is met.
fn row_accepted(
    settings: Settings,
    commitment: &[Residue],
    last: &[i32],
    key: &[Residue],
    rounds: &[Residue],
    challenges: &[u32],
) -> bool
    ensures { Provided (RowGiven settings (length last.now) key.now rounds.now challenges.now)
        (result ≡ transcript.accepted settings key.now (lent_row settings commitment.now rounds.now challenges.now last.now)) }
{
    let mut claim = elements::element_at(settings.degree, commitment, 0);
    if !rounds_hold(settings, rounds, challenges, &mut claim) {
        return false;
    }
    folded_keys::end_holds_for_key(settings, &claim, last, key, challenges)
}

// Is row i accepted. The commitment's elements of the rows stand `step` places from each other: d in a flat table, WIDTH by value.
fn accepted_at(
    settings: Settings,
    i: usize,
    step: usize,
    commitment: &[Residue],
    last: &[i32],
    key: &[Residue],
    rounds: &[Residue],
    challenges: &[u32],
) -> bool
    requires { Sized settings step (length commitment.now) (length key.now) (length rounds.now) × (i < settings.rows) }
    ensures { Provided (TranscriptGiven settings (length last.now) key.now rounds.now challenges.now)
        (result ≡ transcript.accepted settings (key_row settings key.now i)
        (row_at settings step commitment.now rounds.now challenges.now last.now i)) }
{
    let at = i * step;
    let n = sizes::cells(settings);
    let from = i * n;
    let to = from + n;
    let start = equations::rounds::row_start(settings, rounds.len(), i);
    row_accepted(
        settings,
        &commitment[at..],
        last,
        &key[from..to],
        &rounds[start..],
        challenges,
    )
}

// Is every row accepted.
fn every_row_accepted(
    settings: Settings,
    step: usize,
    commitment: &[Residue],
    last: &[i32],
    key: &[Residue],
    rounds: &[Residue],
    challenges: &[u32],
) -> bool
    requires { Sized settings step (length commitment.now) (length key.now) (length rounds.now) }
    ensures { Provided (TranscriptGiven settings (length last.now) key.now rounds.now challenges.now)
        (result ≡ every settings.rows (λ i. transcript.accepted settings (key_row settings key.now i)
        (row_at settings step commitment.now rounds.now challenges.now last.now i))) }
{
    let n = settings.rows as usize;
    (0..n).all(|i| accepted_at(settings, i, step, commitment, last, key, rounds, challenges))
}

// Is a transcript accepted, the commitment being a flat table.
pub fn accepted(
    settings: Settings,
    commitment: &[Residue],
    last: &[i32],
    key: &[Residue],
    rounds: &[Residue],
    challenges: &[u32],
) -> bool
    ensures { Provided (TranscriptGiven settings (length last.now) key.now rounds.now challenges.now)
        (Provided (length commitment.entry.now ≡ item_cells settings)
        (result ≡ all_accepted settings key.now (record {
          commitment = commitment.entry.now;
          rounds = rounds.now;
          challenges = challenges.now;
          last = last.now;
        }))) }
{
    let step = settings.degree as usize;
    let sized = (commitment.len() == sizes::item_cells(settings))
        & (key.len() == sizes::key_cells(settings))
        & (rounds.len() == sizes::round_cells(settings));
    if ranges::tests::allow(settings).is_err() || !sized {
        return false;
    }
    every_row_accepted(settings, step, commitment, last, key, rounds, challenges)
}

// The check of a transcript, as a call that is lent the elements.
pub fn check_lent(
    settings: Settings,
    commitment: &Item,
    last: &[i32; WIDTH],
    key: &[Residue],
    rounds: &[Residue],
    challenges: &[u32],
) -> Result<Verdict, Refusal>
    ensures { as_checked result ≡ check_answer settings commitment.now last.now key.now rounds.now challenges.now }
{
    verifier_refusals::transcript::check(settings, commitment, key, rounds, challenges)?;
    let accepted = every_row_accepted(settings, WIDTH, commitment, last, key, rounds, challenges);
    Ok(if accepted {
        Verdict::Accepted
    } else {
        Verdict::Rejected
    })
}

// The same by value.
pub fn check(
    settings: Settings,
    commitment: Item,
    last: [i32; WIDTH],
    key: &[Residue],
    rounds: &[Residue],
    challenges: &[u32],
) -> Result<Verdict, Refusal>
    ensures answer { as_checked result ≡ check_answer settings commitment last key.now rounds.now challenges.now }
    ensures verdict { verdict_number (as_verdict result) ≡ check_number settings commitment last key.now rounds.now challenges.now }
{
    check_lent(settings, &commitment, &last, key, rounds, challenges)
}
