// The table reader: the tables of a text, in what is lent for them. Nothing is written before the whole text has passed refusals 1 to 10.
#![tactic(auto)]

mod entries;
mod store;

ghost use Rattle.std.specs.Prelude.{◌≡◌, length};
ghost use Rattle.protocol.specs.Answers.{as_loaded};
ghost use Rattle.protocol.specs.Basic.{Provided};
ghost use Rattle.text_format.specs.Promises.{Read};
ghost use Rattle.text_parts.specs.Parts.{lent_cells, lengths_of};
ghost use Rattle.text_parts.specs.Lent.{tables_lent, Kept};
ghost use Rattle.text_lines.specs.Header.{Begins};
ghost use Rattle.text_values.specs.Parts.{Roomy};

use protocol::{Parts, Refusal, Settings};
use text_parts::{CELLS, TablesMut, VALUES};

// The core of the reader, with a place for the values that has room for those of this text.
fn read_by(
    parts: Parts,
    settings: Settings,
    from: usize,
    text: &[u8],
    values: &mut [i64],
    tables: &mut TablesMut<'_>,
) -> Result<Settings, Refusal>
    requires { Roomy (length text.now) (length values.old) }
    ensures kept { Kept tables.old tables.new }
    ensures lengths { lengths_of (tables_lent tables.new) ≡ lengths_of (tables_lent tables.old) }
    ensures read { Provided (Begins text.now settings from) (Read parts text.now (tables_lent tables.old) (as_loaded result) (tables_lent tables.new)) }
{
    let lengths = tables.lengths();
    let settings = text_values::read_values(parts, settings, from, text, lengths, values)?;
    entries::refusal(settings, lengths, values)?;
    store::all(values, tables);
    Ok(settings)
}

// How many numbers of a table to lend for a text whose settings ask for so many: all of them, and no more than a text has lines for.
pub fn lent_cells(cells: usize) -> usize
    ensures { result ≡ lent_cells cells }
{
    cells.min(CELLS)
}

// The values of a short text have a small place, which costs less to make.
const SHORT: usize = 4096;

// The core of the reader, for a text whose settings are read and allowed: `text_lines::allowed_settings` gives them and the place behind them.
pub fn read_tables(
    parts: Parts,
    settings: Settings,
    from: usize,
    text: &[u8],
    tables: &mut TablesMut<'_>,
) -> Result<Settings, Refusal>
    ensures kept { Kept tables.old tables.new }
    ensures lengths { lengths_of (tables_lent tables.new) ≡ lengths_of (tables_lent tables.old) }
    ensures read { Provided (Begins text.now settings from) (Read parts text.now (tables_lent tables.old) (as_loaded result) (tables_lent tables.new)) }
{
    if text.len() <= SHORT {
        let mut values = [0i64; SHORT / 8];
        return read_by(parts, settings, from, text, &mut values, tables);
    }
    let mut values = [0i64; VALUES];
    read_by(parts, settings, from, text, &mut values, tables)
}

// The tables of a text. A caller learns their lengths by `text_lines::read_settings`; the table of a part that is not there has length 0.
pub fn read(parts: Parts, text: &[u8], tables: &mut TablesMut<'_>) -> Result<Settings, Refusal>
    ensures kept { Kept tables.old tables.new }
    ensures lengths { lengths_of (tables_lent tables.new) ≡ lengths_of (tables_lent tables.old) }
    ensures read { Read parts text.now (tables_lent tables.old) (as_loaded result) (tables_lent tables.new) }
{
    let begun = text_lines::allowed_settings(text)?;
    read_tables(parts, begun.settings, begun.next, text, tables)
}
