// Session records in slices of RECORD numbers: degree, depth, modulus, bound, rows, rounds done, closed, then the challenges, then the places of the claims. The
// claims stay in the slice, and are lent from it.
#![tactic(auto)]

ghost use Rattle.std.specs.Prelude.{◌≡◌, length, map, []};
ghost use Rattle.protocol.specs.Basic.{Provided};
ghost use Rattle.protocol.specs.Session.{blank};
ghost use Rattle.slices.specs.Slices.{capped};
ghost use Rattle.verifier_refusals.specs.Lent.{record_of};
ghost use Rattle.session_records.specs.Records.{record_width, challenges_of, claims_of, progress_of, head_of, record_stored};

use protocol::{ROWS_WIDTH, SLOTS, Settings};
use verifier_refusals::Progress;

// The numbers before the challenges, the last of which says whether the record is closed, where the claims begin, and all numbers: `head_width`, `claims_at` and
// `record_width` of the definitions.
const HEAD: usize = 7;

pub const CLOSED: usize = HEAD - 1;

pub const CLAIMS_AT: usize = HEAD + SLOTS;

pub const RECORD: usize = CLAIMS_AT + ROWS_WIDTH;

// A number of 64 bits where one of 32 is wanted: one that is too large counts as the largest, which is out of every range.
#[tactic(auto, unfolding(slices::specs::Slices::capped, protocol::specs::Basic::choose))]
fn capped(x: u64) -> u32
    ensures { result ≡ capped x }
{
    u32::try_from(x).unwrap_or(u32::MAX)
}

fn narrowed(e: [u64; SLOTS]) -> [u32; SLOTS]
    ensures { result ≡ map (λ x. capped x) e }
{
    e.map(|x| capped(x))
}

// The challenges of a record that stands in a slice, and as numbers for one.
fn challenges(t: &[u64]) -> [u32; SLOTS]
    requires { length t.now ≡ record_width }
    ensures { result ≡ challenges_of t.now }
{
    let mut e = [0u64; SLOTS];
    e.copy_from_slice(&t[HEAD..CLAIMS_AT]);
    narrowed(e)
}

fn widened(e: [u32; SLOTS]) -> [u64; SLOTS]
    ensures { result ≡ e }
{
    e.map(u64::from)
}

fn read(t: &[u64]) -> Progress
    requires { length t.now ≡ record_width }
    ensures { result ≡ progress_of t.now }
{
    let s = Settings {
        degree: capped(t[0]),
        depth: capped(t[1]),
        modulus: t[2],
        bound: capped(t[3]),
        rows: capped(t[4]),
    };
    Progress {
        settings: s,
        done: capped(t[5]),
        challenges: challenges(t),
        closed: t[CLOSED] == 1,
    }
}

// The record that a slice holds, beside its claims. A slice of another length holds none.
pub fn load(t: &[u64]) -> Progress
    ensures { Provided (length t.now ≡ record_width) (result ≡ progress_of t.now) }
{
    if t.len() != RECORD {
        return verifier_refusals::blank();
    }
    read(t)
}

// The numbers of a record before the challenges.
#[tactic(auto, using(slices::proofs::Elements::as_number), unfolding(crate::specs::Records::head_of))]
fn head(r: Progress) -> [u64; HEAD]
    ensures { result ≡ head_of (record_of r []) }
{
    let s = r.settings;
    [
        u64::from(s.degree),
        u64::from(s.depth),
        s.modulus,
        u64::from(s.bound),
        u64::from(s.rows),
        u64::from(r.done),
        r.closed as u64,
    ]
}

// Writes a record to a slice of RECORD numbers in which its claims stand; any other slice stays as it is.
#[tactic(auto, using(crate::proofs::Stored::stays))]
pub fn store(r: Progress, t: &mut [u64])
    ensures { t.new ≡ record_stored (record_of r (claims_of t.old)) t.old }
{
    if t.len() != RECORD {
        return;
    }
    let first = head(r);
    let challenges = widened(r.challenges);
    t[..HEAD].copy_from_slice(&first);
    t[HEAD..CLAIMS_AT].copy_from_slice(&challenges);
}

// Writes the closed record of zeros to such a slice.
#[tactic(auto, using(crate::proofs::Stored::stays))]
pub fn store_blank(t: &mut [u64])
    ensures { t.new ≡ record_stored blank t.old }
{
    if t.len() != RECORD {
        return;
    }
    t.fill(0);
    store(verifier_refusals::blank(), t);
}
