// The calls for C and Rust programs: numbers and slices only. A slice is a pointer and a length. include/wovenrock.h says what each function does.
//
// Every function answers the number of the first refusal, 0 where nothing is refused. Every slice has exactly its length, or is refused by 7. A refused call
// writes nothing to a slice, but for the closed record of a refused start.
#![tactic(auto)]

ghost use Rattle.std.specs.Prelude.{◌≡◌};
ghost use Rattle.protocol.specs.Answers.{as_verdict, as_written};
ghost use Rattle.protocol.specs.Refusal.{refusal_of};
ghost use Rattle.protocol.specs.Session.{verdict_number};
ghost use Rattle.protocol.specs.Settings.{settings_refusal};
ghost use Rattle.protocol.specs.Promises.{Folded};
ghost use Rattle.slices.specs.Slices.{given};
ghost use Rattle.sessions.specs.Promises.{StartStored, MoveStored, polynomial_fits, last_fits, round_on, end_on};
ghost use Rattle.text_parts.specs.Parts.{tables_of};
ghost use Rattle.text_format.specs.Programs.{checked, verify_answer};
ghost use Rattle.text_calls.specs.Promises.{Looked, ReadStored, WroteStored, Verdicts, ProvedStored};
ghost use Rattle.exports.specs.Promises.{CommitStored, RoundStored, EndStored, OpeningStored, CheckStored, JudgeStored, ExtractStored};

use protocol::{Refusal, Settings, Verdict};
use ranges::tests;
use text_parts::{Tables, TablesMut};

// The number of a call's refusal; 0 where nothing is refused.
fn number(answer: Result<(), Refusal>) -> u32
    ensures { result ≡ refusal_of answer }
{
    match answer {
        Ok(()) => 0,
        Err(refusal) => refusal.number(),
    }
}

// The same of a call that says something: what it says goes to `verdict` as a number, 0 where it is refused.
#[tactic(auto, unfolding(protocol::specs::Session::verdict_number))]
fn told(answer: Result<Verdict, Refusal>, verdict: &mut u32) -> u32
    ensures { (result ≡ refusal_of answer) × (verdict.new ≡ verdict_number (as_verdict answer)) }
{
    match answer {
        Ok(said) => {
            *verdict = slices::verdict_number(said);
            0
        }
        Err(refusal) => {
            *verdict = 0;
            refusal.number()
        }
    }
}

// The same of a call that writes a text: its length goes to `count`, 0 where it is refused.
fn counted(answer: Result<usize, Refusal>, count: &mut usize) -> u32
    ensures { (result ≡ refusal_of answer) × (count.new ≡ (as_written answer).count) }
{
    *count = answer.unwrap_or(0);
    match answer {
        Ok(_) => 0,
        Err(refusal) => refusal.number(),
    }
}

// Refusals 3 to 6 and 16.
#[unsafe(no_mangle)]
pub extern "C" fn wovenrock_settings(
    degree: u32,
    depth: u32,
    modulus: u64,
    bound: u32,
    rows: u32,
) -> u32
    ensures { result ≡ settings_refusal (given degree depth modulus bound rows) }
{
    let s = Settings {
        degree,
        depth,
        modulus,
        bound,
        rows,
    };
    number(tests::allow(s))
}

// Commit: the commitment goes to the slice `commitment`.
#[unsafe(no_mangle)]
pub extern "C" fn wovenrock_commit(
    degree: u32,
    depth: u32,
    modulus: u64,
    bound: u32,
    rows: u32,
    key: &[u64],
    message: &[i32],
    commitment: &mut [u64],
) -> u32
    ensures { CommitStored (given degree depth modulus bound rows) key.now message.now commitment.old result commitment.new }
{
    let s = Settings {
        degree,
        depth,
        modulus,
        bound,
        rows,
    };
    if let Err(refusal) = slices::refusal(s, commitment.len() == sizes::item_cells(s)) {
        return refusal.number();
    }
    number(prover::commit_to(s, key, message, commitment))
}

// The prover's round: the round polynomial of round done + 1 goes to the slice `polynomial`.
#[unsafe(no_mangle)]
pub extern "C" fn wovenrock_round(
    degree: u32,
    depth: u32,
    modulus: u64,
    bound: u32,
    rows: u32,
    done: u32,
    key: &[u64],
    message: &[i32],
    polynomial: &mut [u64],
) -> u32
    ensures { RoundStored (given degree depth modulus bound rows) done key.now message.now polynomial.old result polynomial.new }
{
    let s = Settings {
        degree,
        depth,
        modulus,
        bound,
        rows,
    };
    if let Err(refusal) = slices::refusal(s, polynomial.len() == 3 * sizes::item_cells(s)) {
        return refusal.number();
    }
    match prover::round(s, done, key, message) {
        Ok(elements) => {
            slices::store_polynomial(s, &elements, polynomial);
            0
        }
        Err(refusal) => refusal.number(),
    }
}

// The fold of both tables by X^e, with `done` rounds done.
#[unsafe(no_mangle)]
pub extern "C" fn wovenrock_fold(
    degree: u32,
    depth: u32,
    modulus: u64,
    bound: u32,
    rows: u32,
    done: u32,
    exponent: u32,
    key: &mut [u64],
    message: &mut [i32],
) -> u32
    ensures { Folded (given degree depth modulus bound rows) done exponent key.old message.old result key.new message.new }
{
    let s = Settings {
        degree,
        depth,
        modulus,
        bound,
        rows,
    };
    number(prover::fold(s, done, exponent, key, message))
}

// The prover's end: the final element goes to the slice `last`.
#[unsafe(no_mangle)]
pub extern "C" fn wovenrock_end(
    degree: u32,
    depth: u32,
    modulus: u64,
    bound: u32,
    rows: u32,
    done: u32,
    message: &[i32],
    last: &mut [i32],
) -> u32
    ensures { EndStored (given degree depth modulus bound rows) done message.now last.old result last.new }
{
    let s = Settings {
        degree,
        depth,
        modulus,
        bound,
        rows,
    };
    if let Err(refusal) = slices::refusal(s, last.len() == degree as usize) {
        return refusal.number();
    }
    match prover::end(s, done, message) {
        Ok(element) => {
            slices::store_wholes(degree, element, last);
            0
        }
        Err(refusal) => refusal.number(),
    }
}

// The whole opening: commitment, round elements, final element and verdict.
#[unsafe(no_mangle)]
pub extern "C" fn wovenrock_open(
    degree: u32,
    depth: u32,
    modulus: u64,
    bound: u32,
    rows: u32,
    key: &mut [u64],
    message: &mut [i32],
    challenges: &[u32],
    rounds: &mut [u64],
    commitment: &mut [u64],
    last: &mut [i32],
    verdict: &mut u32,
) -> u32
    ensures { OpeningStored (given degree depth modulus bound rows) key.old message.old challenges.now rounds.old
        commitment.old last.old result key.new message.new rounds.new commitment.new last.new verdict.new }
{
    *verdict = 0;
    let s = Settings {
        degree,
        depth,
        modulus,
        bound,
        rows,
    };
    let fits = (commitment.len() == sizes::item_cells(s)) & (last.len() == degree as usize);
    if let Err(refusal) = slices::refusal(s, fits) {
        return refusal.number();
    }
    match opening::open(s, key, message, challenges, rounds) {
        Ok(outcome) => {
            slices::store_residues(s, outcome.commitment, commitment);
            slices::store_wholes(degree, outcome.last, last);
            *verdict = slices::verdict_number(outcome.verdict);
            0
        }
        Err(refusal) => refusal.number(),
    }
}

// A session's start at a commitment; the record goes to the slice `session`.
#[unsafe(no_mangle)]
pub extern "C" fn wovenrock_session_start(
    degree: u32,
    depth: u32,
    modulus: u64,
    bound: u32,
    rows: u32,
    commitment: &[u64],
    session: &mut [u64],
) -> u32
    ensures { StartStored (given degree depth modulus bound rows) commitment.now session.old result session.new }
{
    let s = Settings {
        degree,
        depth,
        modulus,
        bound,
        rows,
    };
    number(sessions::start(s, commitment, session))
}

// A session's round.
#[unsafe(no_mangle)]
pub extern "C" fn wovenrock_session_round(
    polynomial: &[u64],
    exponent: u32,
    session: &mut [u64],
    verdict: &mut u32,
) -> u32
    ensures { MoveStored (polynomial_fits polynomial.now session.old) (round_on polynomial.now exponent session.old)
        session.old result session.new verdict.new }
{
    told(sessions::round(polynomial, exponent, session), verdict)
}

// A session's end.
#[unsafe(no_mangle)]
pub extern "C" fn wovenrock_session_end(
    last: &[i32],
    key: &[u64],
    session: &mut [u64],
    verdict: &mut u32,
) -> u32
    ensures { MoveStored (last_fits last.now session.old) (end_on last.now key.now session.old)
        session.old result session.new verdict.new }
{
    told(sessions::end(last, key, session), verdict)
}

// The check of a transcript.
#[unsafe(no_mangle)]
pub extern "C" fn wovenrock_check(
    degree: u32,
    depth: u32,
    modulus: u64,
    bound: u32,
    rows: u32,
    commitment: &[u64],
    last: &[i32],
    key: &[u64],
    rounds: &[u64],
    challenges: &[u32],
    verdict: &mut u32,
) -> u32
    ensures { CheckStored (given degree depth modulus bound rows) commitment.now last.now key.now rounds.now
        challenges.now result verdict.new }
{
    let s = Settings {
        degree,
        depth,
        modulus,
        bound,
        rows,
    };
    *verdict = 0;
    let fits = (commitment.len() == sizes::item_cells(s)) & (last.len() == degree as usize);
    if let Err(refusal) = slices::refusal(s, fits) {
        return refusal.number();
    }
    let c = slices::residues(s, commitment);
    let f = slices::wholes(degree, last);
    told(
        transcripts::check_lent(s, &c, &f, key, rounds, challenges),
        verdict,
    )
}

// The judge of relaxed openings.
#[unsafe(no_mangle)]
pub extern "C" fn wovenrock_judge(
    degree: u32,
    depth: u32,
    modulus: u64,
    bound: u32,
    rows: u32,
    commitment: &[u64],
    slack: u32,
    key: &[u64],
    w: &[i64],
    yes: &mut u32,
) -> u32
    ensures { JudgeStored (given degree depth modulus bound rows) commitment.now slack key.now w.now result yes.new }
{
    let s = Settings {
        degree,
        depth,
        modulus,
        bound,
        rows,
    };
    *yes = 0;
    if let Err(refusal) = slices::refusal(s, commitment.len() == sizes::item_cells(s)) {
        return refusal.number();
    }
    let c = slices::residues(s, commitment);
    match judge::judge(s, c, slack, key, w) {
        Ok(opens) => {
            *yes = u32::from(opens);
            0
        }
        Err(refusal) => refusal.number(),
    }
}

// The extractor: the root's vector goes to the table `w`.
#[unsafe(no_mangle)]
pub extern "C" fn wovenrock_extract(
    degree: u32,
    depth: u32,
    modulus: u64,
    bound: u32,
    rows: u32,
    commitment: &[u64],
    key: &[u64],
    rounds: &[u64],
    challenges: &[u32],
    leaves: &[i32],
    w: &mut [i64],
) -> u32
    ensures { ExtractStored (given degree depth modulus bound rows) commitment.now key.now rounds.now challenges.now
        leaves.now w.old result w.new }
{
    let s = Settings {
        degree,
        depth,
        modulus,
        bound,
        rows,
    };
    if let Err(refusal) = slices::refusal(s, commitment.len() == sizes::item_cells(s)) {
        return refusal.number();
    }
    let c = slices::residues(s, commitment);
    number(extraction::extract(s, c, key, rounds, challenges, leaves, w))
}

// A first look at a text's settings.
#[unsafe(no_mangle)]
pub extern "C" fn wovenrock_look(text: &[u8], settings: &mut [u64]) -> u32
    ensures { Looked text.now settings.old result settings.new }
{
    number(text_calls::look(text, settings))
}

// The table reader.
#[unsafe(no_mangle)]
pub extern "C" fn wovenrock_read(
    parts: u32,
    text: &[u8],
    settings: &mut [u64],
    key: &mut [u64],
    message: &mut [i32],
    commitment: &mut [u64],
    rounds: &mut [u64],
    challenges: &mut [u32],
    last: &mut [i32],
    claims: &mut [u64],
) -> u32
    ensures { ReadStored parts text.now settings.old
        (tables_of key.old message.old commitment.old rounds.old challenges.old last.old claims.old) result
        settings.new (tables_of key.new message.new commitment.new rounds.new challenges.new last.new claims.new) }
{
    let mut tables = TablesMut {
        key,
        message,
        commitment,
        rounds,
        challenges,
        last,
        claims,
    };
    number(text_calls::read(parts, text, settings, &mut tables))
}

// The table writer.
#[unsafe(no_mangle)]
pub extern "C" fn wovenrock_write(
    degree: u32,
    depth: u32,
    modulus: u64,
    bound: u32,
    rows: u32,
    parts: u32,
    key: &[u64],
    message: &[i32],
    commitment: &[u64],
    rounds: &[u64],
    challenges: &[u32],
    last: &[i32],
    claims: &[u64],
    out: &mut [u8],
    count: &mut usize,
) -> u32
    ensures { WroteStored (given degree depth modulus bound rows) parts
        (tables_of key.now message.now commitment.now rounds.now challenges.now last.now claims.now)
        out.old result out.new count.new }
{
    let s = Settings {
        degree,
        depth,
        modulus,
        bound,
        rows,
    };
    let tables = Tables {
        key,
        message,
        commitment,
        rounds,
        challenges,
        last,
        claims,
    };
    counted(text_calls::write(s, parts, &tables, out), count)
}

// The program `verify` as a call on text.
#[unsafe(no_mangle)]
pub extern "C" fn wovenrock_verify(text: &[u8], verdict: &mut u32) -> u32
    ensures { Verdicts (checked (verify_answer text.now)) result verdict.new }
{
    told(text_calls::verify(text), verdict)
}

// The program `prove` as a call on text.
#[unsafe(no_mangle)]
pub extern "C" fn wovenrock_prove(text: &[u8], out: &mut [u8], count: &mut usize) -> u32
    ensures { ProvedStored text.now out.old result out.new count.new }
{
    counted(text_calls::prove(text, out), count)
}
