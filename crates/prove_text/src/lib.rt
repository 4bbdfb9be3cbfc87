// The program `prove` as a call on text: its settings, its tables, the whole opening, and the text of the transcript.
#![tactic(auto)]

ghost use Rattle.std.specs.Prelude.{◌≡◌, [], take};
ghost use Rattle.protocol.specs.Answers.{as_written};
ghost use Rattle.protocol.specs.Basic.{Provided};
ghost use Rattle.protocol.specs.Layout.{item_cells, claim_cells};
ghost use Rattle.protocol.specs.Rows.{together};
ghost use Rattle.protocol.specs.WrittenClaims.{claim_table};
ghost use Rattle.protocol.specs.Settings.{settings_refusal};
ghost use Rattle.text_format.specs.Programs.{prove_reads, prove_prints, prove_output};
ghost use Rattle.text_format.specs.Promises.{Proved};
ghost use Rattle.text_parts.specs.Parts.{tables_of};
ghost use Rattle.claim_tables.specs.Claims.{claimed, Given};
ghost use Rattle.text_lines.specs.Header.{Begins};
ghost use Rattle.table_reader.specs.Parts.{Lent};
ghost use Rattle.table_writer.specs.Shown.{Shown, Within};
ghost use Rattle.prove_text.specs.Printed.{Openable, Printed, RoundsLent};

use protocol::{Item, Parts, ROWS_WIDTH, Refusal, Residue, SLOTS, Settings};
use text_format::TEXT_LIMIT;
use text_lines::Begun;
use text_parts::{CELLS, Tables, TablesMut};

// The parts that the program reads, and those that it prints.
#[tactic(auto, unfolding(text_format::specs::Programs::prove_reads))]
fn reads() -> Parts
    ensures { result ≡ prove_reads }
{
    Parts {
        key: true,
        message: true,
        commitment: false,
        rounds: false,
        challenges: true,
        last: false,
        claims: false,
    }
}

#[tactic(auto, unfolding(text_format::specs::Programs::prove_prints))]
fn prints() -> Parts
    ensures { result ≡ prove_prints }
{
    Parts {
        key: false,
        message: false,
        commitment: true,
        rounds: true,
        challenges: true,
        last: true,
        claims: true,
    }
}

// A commitment by value as a table, with its rows one after the other at the front.
fn flat(settings: Settings, commitment: Item) -> Item
    ensures { Provided (settings_refusal settings ≡ 0) (take (item_cells settings) result ≡ together settings commitment) }
{
    let mut table: Item = [0; ROWS_WIDTH];
    let count = sizes::item_cells(settings);
    slices::store_residues(settings, commitment, &mut table[..count]);
    table
}

// The claims of a transcript with these rounds and challenges, at the front of a table that has room for those of every transcript.
fn claims_of(
    settings: Settings,
    rounds: &[Residue],
    challenges: &[u32],
) -> [Residue; claim_tables::ROOM]
    ensures { Provided (Given settings rounds.now) (take (claim_cells settings) result ≡ claim_table settings (claimed rounds.now challenges.now)) }
{
    let mut table: [Residue; claim_tables::ROOM] = [0; claim_tables::ROOM];
    let count = sizes::claim_cells(settings);
    if count > claim_tables::ROOM {
        return table;
    }
    claim_tables::store(settings, rounds, challenges, &mut table[..count]);
    table
}

// The opening of tables of which nothing is refused, and the text of its transcript with the claims.
fn print_opening(
    settings: Settings,
    key: &mut [Residue],
    message: &mut [i32],
    challenges: &[u32],
    rounds: &mut [Residue],
    out: &mut [u8],
) -> Result<usize, Refusal>
    requires { Openable settings key.old message.old challenges.now rounds.old }
    ensures { Printed settings key.old message.old challenges.now out.old (as_written result) out.new }
{
    let outcome = opening::opened(settings, key, message, challenges, rounds);
    let commitment = flat(settings, outcome.commitment);
    let last = outcome.last;
    let claims = claims_of(settings, rounds, challenges);
    let claim_cells = sizes::claim_cells(settings);
    let item_cells = sizes::item_cells(settings);
    let degree = settings.degree as usize;
    let no_key = [0u64; 1];
    let no_message = [0i32; 1];
    let tables = Tables {
        key: &no_key[..0],
        message: &no_message[..0],
        commitment: &commitment[..item_cells],
        rounds,
        challenges,
        last: &last[..degree],
        claims: &claims[..claim_cells],
    };
    table_writer::write_tables(settings, prints(), &tables, out)
}

// The call with the settings that the text begins with, and with tables of exactly their lengths where a first look refuses nothing and the text has their lines. The tables of parts that are not read have length 0.
fn prove_in(
    text: &[u8],
    begun: Begun,
    key: &mut [Residue],
    message: &mut [i32],
    challenges: &mut [u32],
    rounds: &mut [Residue],
    out: &mut [u8],
) -> Result<usize, Refusal>
    requires lent { Lent prove_reads text.now (tables_of key.old message.old [] [] challenges.old [] []) }
    requires rounds_lent { RoundsLent text.now rounds.old × Begins text.now begun.settings begun.next }
    ensures { Proved text.now out.old (as_written result) out.new }
{
    let mut no_commitment = [0u64; 1];
    let mut no_rounds = [0u64; 1];
    let mut no_last = [0i32; 1];
    let mut no_claims = [0u64; 1];
    let mut tables = TablesMut {
        key,
        message,
        commitment: &mut no_commitment[..0],
        rounds: &mut no_rounds[..0],
        challenges,
        last: &mut no_last[..0],
        claims: &mut no_claims[..0],
    };
    let settings = table_reader::read_tables(
        reads(),
        begun.settings,
        begun.next,
        text,
        &mut tables,
    )?;
    let TablesMut {
        key,
        message,
        challenges,
        ..
    } = tables;
    print_opening(settings, key, message, challenges, rounds, out)
}

// The call. The tables have room for every text; their first numbers, as many as the settings ask for, are lent.
pub fn prove(text: &[u8], out: &mut [u8]) -> Result<usize, Refusal>
    ensures { Proved text.now out.old (as_written result) out.new }
{
    let begun = text_lines::allowed_settings(text)?;
    let settings = begun.settings;
    let depth = settings.depth as usize;
    let key_cells = table_reader::lent_cells(sizes::key_cells(settings));
    let cells = table_reader::lent_cells(sizes::cells(settings));
    let round_cells = table_reader::lent_cells(sizes::round_cells(settings));
    let mut key = [0u64; CELLS];
    let mut message = [0i32; CELLS];
    let mut challenges = [0u32; SLOTS];
    let mut rounds = [0u64; CELLS];
    prove_in(
        text,
        begun,
        &mut key[..key_cells],
        &mut message[..cells],
        &mut challenges[..depth],
        &mut rounds[..round_cells],
        out,
    )
}

// What the program prints, at the front of a slice that has room for it.
pub fn print(text: &[u8], out: &mut [u8]) -> usize
    ensures output { Shown (prove_output text.now) out.old result out.new }
    ensures within { Within result out.new }
{
    let mut listing = [0u8; TEXT_LIMIT];
    match prove(text, &mut listing) {
        Ok(count) => table_writer::show(&listing[..count], out),
        Err(refusal) => table_writer::show_refusal(refusal.number(), out),
    }
}
