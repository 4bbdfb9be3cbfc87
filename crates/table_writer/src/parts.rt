// The lines of parts, one behind the other. A text that is too long is left once it is.
ghost use Rattle.std.specs.Prelude.{◌≡◌, true, ◌≤◌, ◌++◌, length};
ghost use Rattle.protocol.specs.Basic.{Provided};
ghost use Rattle.text_format.specs.Text.{shape_size};
ghost use Rattle.text_parts.specs.Parts.{as_shape, part_of, lengths_are, table_count};
ghost use Rattle.text_parts.specs.Flat.{total};
ghost use Rattle.table_writer.specs.Put.{part_text, Grows};
ghost use Rattle.table_writer.specs.Tables.{behind_text};

use crate::filled::Filled;
use crate::lines::put_line;
use protocol::{Parts, Refusal, Settings};
use ranges::tests::require;
use text_format::TEXT_LIMIT;
use text_parts::{Cell, Shape, TABLES, shape_of};

// The room for a line: four numbers, each of at most nineteen digits with a byte behind it, and a minus. `line_room` of the definitions.
const LINE: usize = 81;

// The room for the longest text and one line: a line is put only where the text is not too long before it. `text_room` of the definitions.
const TEXT_ROOM: usize = TEXT_LIMIT + LINE;

pub type Text = Filled<u8, TEXT_ROOM>;

// The lines of a part with its values.
pub fn put_part(shape: Shape, values: &[i64], text: &mut Text) -> Result<(), Refusal>
    ensures { Provided (length values.now ≡ shape_size (as_shape shape))
        (Grows (text.old ++ part_text (as_shape shape) values.now) result text.new) }
{
    let mut cell = Cell { item: 0, place: 0 };
    for value in values {
        require(text.len() <= TEXT_LIMIT, Refusal::Long)?;
        put_line(shape.part, cell, *value, text);
        cell = cell.next(shape.places);
    }
    Ok(())
}

// The parts behind the settings. The values of tables of these lengths stand one table after the other.
pub fn put_parts(
    settings: Settings,
    parts: Parts,
    lengths: [usize; TABLES],
    values: &[i64],
    text: &mut Text,
) -> Result<(), Refusal>
    requires { total lengths ≤ length values.now }
    ensures { Provided (lengths_are (part_of settings parts) lengths ≡ true)
        (Grows (behind_text settings parts lengths values.now table_count text.old) result text.new) }
{
    let mut rest = values;
    for k in 0..TABLES {
        let shape = shape_of(settings, parts, (k as u32) + 1);
        let (table, behind) = rest.split_at(lengths[k]);
        put_part(shape, table, text)?;
        rest = behind;
    }
    Ok(())
}
