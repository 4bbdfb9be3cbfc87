// The calls on text for C and Rust; what `exports` adds is the numbers of their answers.
//
// Settings go to a slice of five numbers: degree, depth, modulus, bound, rows. Which of parts 1 to 7 are there is a number below 128: bit 0 is the key, bit 6 the
// claims. A refused call writes nothing to a slice.
#![tactic(auto)]

mod settings;

ghost use Rattle.std.specs.Prelude.{◌≡◌, [], ◌∷◌};
ghost use Rattle.protocol.specs.Answers.{as_verdict, as_written};
ghost use Rattle.protocol.specs.Basic.{first};
ghost use Rattle.protocol.specs.Refusal.{number, refusal_of};
ghost use Rattle.protocol.specs.Session.{verdict_number};
ghost use Rattle.text_format.specs.Text.{look_refusal};
ghost use Rattle.text_format.specs.Programs.{checked, verify_answer};
ghost use Rattle.text_parts.specs.Parts.{lengths_of};
ghost use Rattle.text_parts.specs.Lent.{tables_read, tables_lent, Kept};
ghost use Rattle.text_calls.specs.Texts.{parts_of};
ghost use Rattle.text_calls.specs.Promises.{Looked, ReadStored, WroteStored, Verdicts, ProvedStored};

use crate::settings::SETTINGS;
use protocol::{Parts, Refusal, Settings, Verdict};
use ranges::tests::require;
use text_parts::{Tables, TablesMut};

// One past the largest number that names parts, with a bit for each: `parts_count` of the definitions.
const PARTS: u32 = 128;

// The parts that a number names. A bit for each is what the functions for C take.
#[tactic(auto, unfolding(crate::specs::Texts::parts_of))]
fn parts_of(bits: u32) -> Parts
    ensures { result ≡ parts_of bits }
{
    Parts {
        key: bits % 2 == 1,
        message: bits / 2 % 2 == 1,
        commitment: bits / 4 % 2 == 1,
        rounds: bits / 8 % 2 == 1,
        challenges: bits / 16 % 2 == 1,
        last: bits / 32 % 2 == 1,
        claims: bits / 64 % 2 == 1,
    }
}

// A first look at a text's settings.
pub fn look(text: &[u8], settings: &mut [u64]) -> Result<(), Refusal>
    ensures { Looked text.now settings.old (refusal_of result) settings.new }
{
    let looked = text_lines::read_settings(text)?;
    require(settings.len() == SETTINGS, Refusal::Size)?;
    settings::store(looked, settings);
    Ok(())
}

// The refusal of a text for which slices are lent that have not their lengths.
fn refused(text: &[u8]) -> Refusal
    ensures { number result ≡ first (look_refusal text.now ∷ 7 ∷ []) }
{
    match text_lines::read_settings(text) {
        Ok(_) => Refusal::Size,
        Err(refusal) => refusal,
    }
}

// The table reader.
pub fn read(
    parts: u32,
    text: &[u8],
    settings: &mut [u64],
    tables: &mut TablesMut<'_>,
) -> Result<(), Refusal>
    ensures kept { Kept tables.old tables.new }
    ensures lengths { lengths_of (tables_lent tables.new) ≡ lengths_of (tables_lent tables.old) }
    ensures stored { ReadStored parts text.now settings.old (tables_lent tables.old) (refusal_of result) settings.new (tables_lent tables.new) }
{
    let fits = (settings.len() == SETTINGS) & (parts < PARTS);
    if !fits {
        return Err(refused(text));
    }
    let found = table_reader::read(parts_of(parts), text, tables)?;
    settings::store(found, settings);
    Ok(())
}

// The table writer: the length of the text.
pub fn write(
    settings: Settings,
    parts: u32,
    tables: &Tables<'_>,
    out: &mut [u8],
) -> Result<usize, Refusal>
    ensures { WroteStored settings parts (tables_read tables.now) out.old (refusal_of result) out.new (as_written result).count }
{
    slices::refusal(settings, parts < PARTS)?;
    table_writer::write(settings, parts_of(parts), tables, out)
}

// The program `verify` as a call on text.
pub fn verify(text: &[u8]) -> Result<Verdict, Refusal>
    ensures { Verdicts (checked (verify_answer text.now)) (refusal_of result) (verdict_number (as_verdict result)) }
{
    verify_text::verify(text)
}

// The program `prove` as a call on text: the length of what it writes.
pub fn prove(text: &[u8], out: &mut [u8]) -> Result<usize, Refusal>
    ensures { ProvedStored text.now out.old (refusal_of result) out.new (as_written result).count }
{
    prove_text::prove(text, out)
}
