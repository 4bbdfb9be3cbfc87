// The table writer: its refusals, and then a core that tests the text alone.
ghost use Rattle.std.specs.Prelude.{◌≡◌, true, ◌≤◌, length};
ghost use Rattle.protocol.specs.Answers.{as_written};
ghost use Rattle.protocol.specs.Basic.{Provided};
ghost use Rattle.text_format.specs.Promises.{Wrote};
ghost use Rattle.text_format.specs.Text.{text_of};
ghost use Rattle.text_parts.specs.Parts.{part_of, lengths_are};
ghost use Rattle.text_parts.specs.Lent.{tables_read};
ghost use Rattle.text_parts.specs.Flat.{total};
ghost use Rattle.table_writer.specs.Tables.{Writable, values_text, Output};

use crate::gather;
use crate::gather::Values;
use crate::parts::Text;
use crate::refusal::tables_refusal;
use crate::text::put_text;
use protocol::{Parts, Refusal, Settings};
use ranges::tests::require;
use text_format::TEXT_LIMIT;
use text_parts::{TABLES, Tables};

// The text of values. It is made in a place of its own: the output slice is written only once nothing is refused.
fn write_values(
    settings: Settings,
    parts: Parts,
    lengths: [usize; TABLES],
    values: &[i64],
    out: &mut [u8],
) -> Result<usize, Refusal>
    requires { total lengths ≤ length values.now }
    ensures { Provided (lengths_are (part_of settings parts) lengths ≡ true)
        (Output (values_text settings parts lengths values.now) out.old (as_written result) out.new) }
{
    let mut text = Text::new(0);
    put_text(settings, parts, lengths, values, &mut text)?;
    let count = text.len();
    require(count <= TEXT_LIMIT, Refusal::Long)?;
    require(count <= out.len(), Refusal::Size)?;
    out[..count].copy_from_slice(text.as_slice());
    Ok(count)
}

// The core of the writer, for tables of which nothing is refused: the length of their text and the output slice are left to test.
pub fn write_tables(
    settings: Settings,
    parts: Parts,
    tables: &Tables<'_>,
    out: &mut [u8],
) -> Result<usize, Refusal>
    ensures { Provided (Writable settings parts (tables_read tables.now))
        (Output (text_of settings parts (tables_read tables.now)) out.old (as_written result) out.new) }
{
    let lengths = tables.lengths();
    require(gather::room(lengths), Refusal::Long)?;
    let mut values = Values::new(0);
    gather::all(tables, &mut values);
    write_values(settings, parts, lengths, values.as_slice(), out)
}

pub fn write(
    settings: Settings,
    parts: Parts,
    tables: &Tables<'_>,
    out: &mut [u8],
) -> Result<usize, Refusal>
    ensures { Wrote settings parts (tables_read tables.now) out.old (as_written result) out.new }
{
    tables_refusal(settings, parts, tables)?;
    write_tables(settings, parts, tables, out)
}
