// The lines of a part, read one after the other.
ghost use Rattle.std.specs.Prelude.{◌≡◌, ◌*◌, ◌≤◌, length, IsSome};
ghost use Rattle.protocol.specs.Basic.{Provided};
ghost use Rattle.protocol.specs.Settings.{settings_refusal};
ghost use Rattle.text_format.specs.Text.{shape_size, spots};
ghost use Rattle.text_parts.specs.Parts.{as_shape};
ghost use Rattle.text_values.specs.Parts.{part_spots, Took, RoomFor};

use protocol::{Number, Parts, Settings};
use text_lines::value_at;
use text_parts::{Cell, Shape, TABLES, shape_of};

// How many parts there are, the settings being part 0.
const PARTS: u32 = (TABLES as u32) + 1;

// The values of the lines of a part, from a place on; the place behind them, where all of them are found.
pub fn read_part(text: &[u8], from: usize, shape: Shape, values: &mut [i64]) -> Option<usize>
    requires { shape_size (as_shape shape) ≤ length values.old }
    ensures { Provided (from ≤ length text.now) (Took text.now from (spots (as_shape shape)) result values.new) }
{
    let size = shape.size();
    let mut at = from;
    let mut cell = Cell { item: 0, place: 0 };
    // By index: of a table that is written through `iter_mut` its length alone is known behind the loop.
    for p in 0..size {
        let Ok(Number { value, next }) = value_at(text, at, shape.part, cell.item, cell.place)
        else {
            return None;
        };
        values[p] = value;
        at = next;
        cell = cell.next(shape.places);
    }
    Some(at)
}

// The values of the lines behind the settings, part after part. A line has at least eight bytes, so where there is no room for the values of
// the lines that are wanted, not all of them are in the text.
pub fn read_parts(
    settings: Settings,
    parts: Parts,
    text: &[u8],
    from: usize,
    values: &mut [i64],
) -> Option<usize>
    ensures lines { Provided ((settings_refusal settings ≡ 0) × (from ≤ length text.now) × (length text.now ≤ 8 * length values.old))
        (Took text.now from (part_spots settings parts) result values.new) }
    ensures room { IsSome result → RoomFor settings parts (length values.new) }
{
    let mut at = from;
    let mut start: usize = 0;
    for part in 1..PARTS {
        let shape = shape_of(settings, parts, part);
        let size = shape.size();
        if size > values.len() - start {
            return None;
        }
        at = read_part(text, at, shape, &mut values[start..])?;
        start += size;
    }
    Some(at)
}
