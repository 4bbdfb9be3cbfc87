// The verifier's session on a record that stands in a lent slice of RECORD numbers. A refused move writes nothing to it; a refused start writes the closed
// record of zeros. Claims and elements are read, and the next claims written, where they stand.
#![tactic(auto)]

ghost use Rattle.protocol.specs.Answers.{as_verdict};
ghost use Rattle.protocol.specs.Refusal.{refusal_of};
ghost use Rattle.protocol.specs.Session.{verdict_number};
ghost use Rattle.session_records.specs.Records.{claims_of};
ghost use Rattle.verifier.specs.Records.{moved_with};
ghost use Rattle.sessions.specs.Promises.{StartStored, MoveStored, Answered, polynomial_fits, last_fits, round_on, end_on};

use protocol::{Handed, Refusal, Residue, Settings, Verdict};
use session_records::{CLAIMS_AT, CLOSED, RECORD};
use verifier_refusals::Progress;

// A session starts at the commitment in a slice.
pub fn start(settings: Settings, commitment: &[Residue], session: &mut [u64]) -> Result<(), Refusal>
    ensures { StartStored settings commitment.now session.old (refusal_of result) session.new }
{
    let fits = (commitment.len() == sizes::item_cells(settings)) & (session.len() == RECORD);
    if let Err(refusal) = slices::refusal(settings, fits) {
        session_records::store_blank(session);
        return Err(refusal);
    }
    let d = settings.degree as usize;
    let begun = verifier::start_on(settings, d, commitment, &mut session[CLAIMS_AT..]);
    session_records::store(begun.next, session);
    begun.said
}

// Stores what a move hands back, where it is not refused: the record around its claims, which are written already.
fn answer(moved: Handed<Verdict, Progress>, session: &mut [u64]) -> Result<Verdict, Refusal>
    ensures { Answered (moved_with moved (claims_of session.old)) session.old (refusal_of result) session.new (verdict_number (as_verdict result)) }
{
    let verdict = moved.said?;
    session_records::store(moved.next, session);
    Ok(verdict)
}

// A round, with the polynomial in a slice and the challenge X^e.
pub fn round(polynomial: &[Residue], e: u32, session: &mut [u64]) -> Result<Verdict, Refusal>
    ensures { MoveStored (polynomial_fits polynomial.now session.old) (round_on polynomial.now e session.old)
        session.old (refusal_of result) session.new (verdict_number (as_verdict result)) }
{
    if session.len() != RECORD {
        return Err(Refusal::Size);
    }
    let before = session_records::load(session);
    let settings = before.settings;
    let n = sizes::item_cells(settings);
    let fits = (polynomial.len() == 3 * n) & (session[CLOSED] <= 1);
    slices::refusal(settings, fits)?;
    let third = 2 * n;
    let moved = verifier::round_on(
        before,
        settings.degree as usize,
        polynomial,
        &polynomial[n..],
        &polynomial[third..],
        e,
        &mut session[CLAIMS_AT..],
    );
    answer(moved, session)
}

// The end, with the final element in a slice and the unfolded key.
pub fn end(last: &[i32], key: &[Residue], session: &mut [u64]) -> Result<Verdict, Refusal>
    ensures { MoveStored (last_fits last.now session.old) (end_on last.now key.now session.old)
        session.old (refusal_of result) session.new (verdict_number (as_verdict result)) }
{
    if session.len() != RECORD {
        return Err(Refusal::Size);
    }
    let before = session_records::load(session);
    let settings = before.settings;
    let d = settings.degree;
    let fits = (last.len() == d as usize) & (session[CLOSED] <= 1);
    slices::refusal(settings, fits)?;
    let f = slices::wholes(d, last);
    let moved = verifier::end_on(before, &session[CLAIMS_AT..], &f, key);
    answer(moved, session)
}
