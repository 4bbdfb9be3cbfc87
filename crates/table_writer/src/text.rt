// The text of values.
ghost use Rattle.std.specs.Prelude.{◌≡◌, true, ◌≤◌, [], length};
ghost use Rattle.protocol.specs.Basic.{Provided};
ghost use Rattle.text_parts.specs.Parts.{part_of, lengths_are};
ghost use Rattle.text_parts.specs.Flat.{total};
ghost use Rattle.table_writer.specs.Put.{Grows};
ghost use Rattle.table_writer.specs.Tables.{settings_text, values_text};

use crate::gather::Value;
use crate::parts::{Text, put_part, put_parts};
use protocol::{Parts, Refusal, Settings};
use text_parts::{TABLES, settings_shape};

// The names line and the settings.
fn put_settings(settings: Settings, text: &mut Text) -> Result<(), Refusal>
    requires { text.old ≡ [] }
    ensures { Grows (settings_text settings) result text.new }
{
    text.extend(b"part item place value\n");
    let values = [
        settings.degree.value(),
        settings.depth.value(),
        settings.modulus.value(),
        settings.bound.value(),
        settings.rows.value(),
    ];
    put_part(settings_shape(), &values, text)
}

// The names line, the settings and the parts that are there.
pub fn put_text(
    settings: Settings,
    parts: Parts,
    lengths: [usize; TABLES],
    values: &[i64],
    text: &mut Text,
) -> Result<(), Refusal>
    requires { (text.old ≡ []) × (total lengths ≤ length values.now) }
    ensures { Provided (lengths_are (part_of settings parts) lengths ≡ true) (Grows (values_text settings parts lengths values.now) result text.new) }
{
    put_settings(settings, text)?;
    put_parts(settings, parts, lengths, values, text)
}
