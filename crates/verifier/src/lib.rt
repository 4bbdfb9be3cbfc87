// The verifier's session (PROTOCOL 4): moves by value, from one record to the next. Each is one on a record whose claims are lent, which copies no element.
#![tactic(auto)]

ghost use Rattle.std.specs.Prelude.{◌≡◌, ◌*◌, ◌<◌, ◌≤◌, length};
ghost use Rattle.protocol.specs.Answers.{as_started, as_moved, as_verdict};
ghost use Rattle.protocol.specs.Basic.{Provided};
ghost use Rattle.protocol.specs.Element.{zeros};
ghost use Rattle.protocol.specs.Layout.{width, rows_most, rows_width};
ghost use Rattle.protocol.specs.Rows.{at_rows};
ghost use Rattle.protocol.specs.Session as moves;
ghost use Rattle.protocol.specs.Settings.{settings_refusal};
ghost use Rattle.verifier_refusals.specs.Lent.{record_of, lent_rows, lent_polynomial, RowsLent, StartLent, RoundLent};
ghost use Rattle.verifier.specs.Records.{started_with, moved_with, shut_of, counted_of, row_read, LastLent};

use protocol::{
    Handed, Item, Polynomial, ROWS, ROWS_WIDTH, Residue, SLOTS, Session, Settings, Verdict, WIDTH,
};
use verifier_refusals::Progress;

// A verifier holds its session's record. (A method stands in the crate of its type, and the record's type in the crate of the definitions.)
#[derive(Clone, Copy)]
pub struct Verifier(pub Session);

// The record, closed.
fn shut(progress: Progress) -> Progress
    ensures { result ≡ shut_of progress }
{
    Progress {
        closed: true,
        ..progress
    }
}

// The record after a round that holds, where one was left.
fn counted(progress: Progress, e: u32) -> Progress
    ensures { Provided (progress.done < 8) (result ≡ counted_of progress e) }
{
    let t = progress.done as usize;
    let mut next = progress;
    if t >= SLOTS {
        return next;
    }
    next.challenges[t] = e;
    next.done = next.done + 1;
    next
}

// Writes the first d places of each row of a commitment over zeros.
fn read_rows(settings: Settings, step: usize, commitment: &[Residue], claims: &mut [Residue])
    requires { (settings.rows ≤ rows_most) × (step ≤ width) × (settings.rows * step ≤ length commitment.now) × (length claims.old ≡ rows_width) }
    ensures { Provided ((settings_refusal settings ≡ 0) × RowsLent settings step (length commitment.now) × (claims.old ≡ zeros rows_width))
        (claims.new ≡ at_rows settings (row_read settings (lent_rows settings step commitment.now))) }
{
    for i in 0..settings.rows as usize {
        let from = i * step;
        let to = i * WIDTH;
        residues::store(settings.degree as usize, &commitment[from..], to, claims);
    }
}

// Writes the claims that a session starts with, whatever stood there.
fn first_claims(settings: Settings, step: usize, commitment: &[Residue], claims: &mut [Residue])
    ensures { Provided ((settings_refusal settings ≡ 0) × RowsLent settings step (length commitment.now) × (length claims.old ≡ rows_width))
        (claims.new ≡ at_rows settings (row_read settings (lent_rows settings step commitment.now))) }
{
    let n = settings.rows as usize;
    if n > ROWS || step > WIDTH || claims.len() != ROWS_WIDTH {
        return;
    }
    if commitment.len() < n * step {
        return;
    }
    claims.fill(0);
    read_rows(settings, step, commitment, claims);
}

// A session starts at a commitment whose elements stand `step` places from each other, and its claims are written: they stand where they were lent. Where it is
// refused they are zeros.
pub fn start_on(
    settings: Settings,
    step: usize,
    commitment: &[Residue],
    claims: &mut [Residue],
) -> Handed<(), Progress>
    ensures { Provided (StartLent settings step (length commitment.now)) (Provided (length claims.old ≡ rows_width)
        (started_with result claims.new ≡ moves.start settings (lent_rows settings step commitment.now))) }
{
    if let Err(refusal) = verifier_refusals::session::start(settings, step, commitment) {
        claims.fill(0);
        return Handed {
            said: Err(refusal),
            next: verifier_refusals::blank(),
        };
    }
    first_claims(settings, step, commitment, claims);
    Handed {
        said: Ok(()),
        next: Progress {
            settings,
            done: 0,
            challenges: [0u32; SLOTS],
            closed: false,
        },
    }
}

// A round: the equation 2·(c0 + c2) = claim of every row, and the next claims in the place of the claims.
pub fn round_on(
    progress: Progress,
    step: usize,
    c0: &[Residue],
    c1: &[Residue],
    c2: &[Residue],
    e: u32,
    claims: &mut [Residue],
) -> Handed<Verdict, Progress>
    ensures { Provided (RoundLent progress.settings (length claims.old) step (length c0.now) (length c1.now) (length c2.now))
        (moved_with result claims.new ≡ moves.round (record_of progress claims.old)
        (lent_polynomial progress.settings step c0.now c1.now c2.now) e) }
{
    if let Err(refusal) = verifier_refusals::session::round(progress, claims, step, c0, c1, c2, e) {
        return Handed {
            said: Err(refusal),
            next: progress,
        };
    }
    let settings = progress.settings;
    if !row_equations::round_holds(settings, claims, step, c0, c2) {
        return Handed {
            said: Ok(Verdict::Rejected),
            next: shut(progress),
        };
    }
    row_equations::next_claims(settings, e, step, c0, c1, c2, claims);
    Handed {
        said: Ok(Verdict::Holds),
        next: counted(progress, e),
    }
}

// The end: the bound on the final element, and the last equation of every row with its part of the key folded by the record's challenges.
pub fn end_on(
    progress: Progress,
    claims: &[Residue],
    last: &[i32],
    key: &[Residue],
) -> Handed<Verdict, Progress>
    ensures { Provided (LastLent progress.settings (length claims.now) (length last.now))
        (moved_with result claims.now ≡ moves.end (record_of progress claims.now) last.now key.now) }
{
    if let Err(refusal) = verifier_refusals::session::end(progress, claims, key) {
        return Handed {
            said: Err(refusal),
            next: progress,
        };
    }
    let settings = progress.settings;
    let challenges = progress.challenges;
    let met = row_equations::ends_hold(settings, claims, last, key, &challenges);
    Handed {
        said: Ok(if met {
            Verdict::Accepted
        } else {
            Verdict::Rejected
        }),
        next: shut(progress),
    }
}

// A record by value, from its two parts.
fn joined(progress: Progress, claims: Item) -> Session
    ensures { result ≡ record_of progress claims }
{
    let Progress {
        settings,
        done,
        challenges,
        closed,
    } = progress;
    Session {
        settings,
        done,
        claims,
        challenges,
        closed,
    }
}

// A record by value beside its claims.
fn beside(session: Session) -> Progress
    ensures { record_of result session.claims ≡ session }
{
    let Session {
        settings,
        done,
        challenges,
        closed,
        ..
    } = session;
    Progress {
        settings,
        done,
        challenges,
        closed,
    }
}

// A round with a polynomial as it is passed by value.
fn round_with(
    progress: Progress,
    polynomial: &Polynomial,
    e: u32,
    claims: &mut Item,
) -> Handed<Verdict, Progress>
    ensures { moved_with result claims.new ≡ moves.round (record_of progress claims.old) polynomial.now e }
{
    let [c0, c1, c2] = polynomial;
    round_on(progress, WIDTH, c0, c1, c2, e, claims)
}

impl Verifier {
    // A session starts at a commitment, whatever record there was before.
    pub fn start(self, settings: Settings, commitment: Item) -> Handed<(), Session>
        ensures { as_started result ≡ moves.start settings commitment }
    {
        let mut claims: Item = [0; ROWS_WIDTH];
        let begun = start_on(settings, WIDTH, &commitment, &mut claims);
        Handed {
            said: begun.said,
            next: joined(begun.next, claims),
        }
    }

    // A round.
    pub fn round(self, polynomial: Polynomial, e: u32) -> Handed<Verdict, Session>
        ensures answer { as_moved result ≡ moves.round self.0 polynomial e }
        ensures verdict { moves.verdict_number (as_verdict result.said) ≡ moves.session_round_number self.0 polynomial e }
    {
        let mut claims = self.0.claims;
        let moved = round_with(beside(self.0), &polynomial, e, &mut claims);
        Handed {
            said: moved.said,
            next: joined(moved.next, claims),
        }
    }

    // The end.
    pub fn end(self, last: [i32; WIDTH], key: &[Residue]) -> Handed<Verdict, Session>
        ensures answer { as_moved result ≡ moves.end self.0 last key.now }
        ensures verdict { moves.verdict_number (as_verdict result.said) ≡ moves.session_end_number self.0 last key.now }
    {
        let claims = self.0.claims;
        let moved = end_on(beside(self.0), &claims, &last, key);
        Handed {
            said: moved.said,
            next: joined(moved.next, claims),
        }
    }
}
