// Lines as text.
ghost use Rattle.std.specs.Prelude.{◌≡◌, ◌+◌, ◌≤◌, ◌++◌, length};
ghost use Rattle.text_format.specs.Text.{line_text};
ghost use Rattle.table_writer.specs.Put.{spot_room, line_room, spot_text, line_at};

use crate::filled::Filled;
use crate::numbers::put_field;
use text_parts::Cell;

// Part, item and place of a line.
fn put_spot<const N: usize>(part: u32, cell: Cell, text: &mut Filled<u8, N>)
    requires { length text.old + spot_room ≤ N }
    ensures { text.new ≡ text.old ++ spot_text part cell }
{
    put_field(u64::from(part), b' ', text);
    put_field(u64::from(cell.item), b' ', text);
    put_field(u64::from(cell.place), b' ', text);
}

// A line with its value.
pub fn put_line<const N: usize>(part: u32, cell: Cell, value: i64, text: &mut Filled<u8, N>)
    requires { length text.old + line_room ≤ N }
    ensures { text.new ≡ text.old ++ line_text (line_at part cell value) }
{
    put_spot(part, cell, text);
    if value < 0 {
        text.push(b'-');
    }
    put_field(value.unsigned_abs(), b'\n', text);
}
