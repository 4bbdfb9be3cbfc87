// The program `verify` as a call on text: its settings, its tables, the check of its transcript and of the claims that are written beside it.
#![tactic(auto)]

ghost use Rattle.std.specs.Prelude.{◌≡◌};
ghost use Rattle.protocol.specs.Answers.{said, as_checked, Verified};
ghost use Rattle.protocol.specs.Answers.Verdict.{Accepted, Rejected};
ghost use Rattle.protocol.specs.Basic.{choose};
ghost use Rattle.text_format.specs.Programs.{verify_reads, tables_accepted, verify_answer, checked, verify_gives, verdict_line, verify_output};
ghost use Rattle.text_parts.specs.Lent.{tables_lent};
ghost use Rattle.text_lines.specs.Header.{Begins};
ghost use Rattle.table_reader.specs.Parts.{Lent};
ghost use Rattle.table_writer.specs.Shown.{Shown, Within};
ghost use Rattle.verify_text.specs.Given.{Given};

use protocol::{Parts, ROWS_WIDTH, Refusal, SLOTS, Settings, Verdict, WIDTH};
use text_lines::Begun;
use text_parts::{CELLS, TablesMut};

// The parts that the program reads.
#[tactic(auto, unfolding(text_format::specs::Programs::verify_reads))]
fn reads() -> Parts
    ensures { result ≡ verify_reads }
{
    Parts {
        key: true,
        message: false,
        commitment: true,
        rounds: true,
        challenges: true,
        last: true,
        claims: true,
    }
}

// What is said of tables of which nothing is refused: the transcript is accepted, and every written claim is the one that it gives.
fn verdict(settings: Settings, tables: &TablesMut<'_>) -> Verdict
    requires { Given settings (tables_lent tables.now) }
    ensures { said result ≡ choose (tables_accepted settings (tables_lent tables.now)) Accepted Rejected }
{
    let accepted = transcripts::accepted(
        settings,
        tables.commitment,
        tables.last,
        tables.key,
        tables.rounds,
        tables.challenges,
    );
    let written = claim_tables::written(settings, tables.rounds, tables.challenges, tables.claims);
    if accepted & written {
        Verdict::Accepted
    } else {
        Verdict::Rejected
    }
}

// The call with the settings that the text begins with, and with tables of exactly their lengths where a first look refuses nothing and the text has their lines.
fn verify_in(
    text: &[u8],
    settings: Settings,
    from: usize,
    tables: &mut TablesMut<'_>,
) -> Result<Verdict, Refusal>
    requires lent { Lent verify_reads text.now (tables_lent tables.old) }
    requires begins { Begins text.now settings from }
    ensures { as_checked result ≡ checked (verify_answer text.now) }
{
    let settings = table_reader::read_tables(reads(), settings, from, text, tables)?;
    Ok(verdict(settings, tables))
}

// The call: refused by its text, or what is said of it. The tables have room for every text; their first numbers, as many as the settings ask for, are lent.
pub fn verify(text: &[u8]) -> Result<Verdict, Refusal>
    ensures answer { as_checked result ≡ checked (verify_answer text.now) }
    ensures numbers { as_checked result ≡ verify_gives text.now }
{
    let Begun { settings, next } = text_lines::allowed_settings(text)?;
    let key_cells = table_reader::lent_cells(sizes::key_cells(settings));
    let item_cells = sizes::item_cells(settings);
    let round_cells = table_reader::lent_cells(sizes::round_cells(settings));
    let claim_cells = sizes::claim_cells(settings);
    let degree = settings.degree as usize;
    let depth = settings.depth as usize;
    let mut key = [0u64; CELLS];
    let mut message = [0i32; 1];
    let mut commitment = [0u64; ROWS_WIDTH];
    let mut rounds = [0u64; CELLS];
    let mut challenges = [0u32; SLOTS];
    let mut last = [0i32; WIDTH];
    let mut claims = [0u64; claim_tables::ROOM];
    let mut tables = TablesMut {
        key: &mut key[..key_cells],
        message: &mut message[..0],
        commitment: &mut commitment[..item_cells],
        rounds: &mut rounds[..round_cells],
        challenges: &mut challenges[..depth],
        last: &mut last[..degree],
        claims: &mut claims[..claim_cells],
    };
    verify_in(text, settings, next, &mut tables)
}

// The line for an answer. No text is answered by what is said of a round.
fn show_verdict(answer: Result<Verdict, Refusal>, out: &mut [u8]) -> usize
    ensures { (v : Verified) → as_checked answer ≡ checked v → Shown (verdict_line v) out.old result out.new }
{
    match answer {
        Ok(Verdict::Accepted) => table_writer::show(b"accepted\n", out),
        Ok(Verdict::Rejected) => table_writer::show(b"rejected\n", out),
        Ok(Verdict::Holds) => 0,
        Err(refusal) => table_writer::show_refusal(refusal.number(), out),
    }
}

// What the program prints, at the front of a slice that has room for it. A line has at most 19 bytes.
pub fn print(text: &[u8], out: &mut [u8]) -> usize
    ensures output { Shown (verify_output text.now) out.old result out.new }
    ensures within { Within result out.new }
{
    show_verdict(verify(text), out)
}
