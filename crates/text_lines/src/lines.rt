// The line reader.
ghost use Rattle.std.specs.Prelude.{◌≡◌, drop};
ghost use Rattle.protocol.specs.Answers.{as_number, as_entry};
ghost use Rattle.text_format.specs.Text.{limit_of, byte as behindByte, plain, read_index, read_line, number_answer, read_number_at, reading};
ghost use Rattle.text_format.specs.Lines.{present, given_number, read_index_at, line_reading, given_line, read_line_at, all_lines, spot, read_value};

use crate::numbers::{number_within, read_count};
use protocol::{Line, Number, Refusal};
use text_format::{NARROW_LIMIT, VALUE_LIMIT};

// Does this byte stand at a place.
fn stands(text: &[u8], at: usize, byte: u8) -> bool
    ensures { result ≡ present (behindByte byte (drop at text.now)) }
{
    text.get(at) == Some(&byte)
}

// A number without a sign and the space behind it.
fn read_index(text: &[u8], at: usize) -> Result<Number, Refusal>
    ensures answer { as_number result ≡ read_index_at text.now at }
    ensures numbers { reading (as_number result) ≡ given_number text.now (plain (read_index (drop at text.now))) }
{
    let Ok(Number { value, next }) = read_count(text, at) else {
        return Err(Refusal::Text);
    };
    if !stands(text, next, b' ') {
        return Err(Refusal::Text);
    }
    Ok(Number {
        value,
        next: next + 1,
    })
}

// The largest magnitude of a value in a line of a part. Each part has an arm of its own, so that the compiler looks the limit up: where it is chosen by comparing, the
// code of the digits is shifted, and costs a third more wherever the linker lays it at an odd multiple of 16 bytes.
#[tactic(auto, unfolding(text_format::specs::Text::limit_of, text_format::specs::Text::value_limit, text_format::specs::Text::narrow_limit, protocol::specs::Basic::choose, protocol::specs::Basic::among))]
fn limit_of(part: u32) -> u64
    ensures { result ≡ limit_of part }
{
    match part {
        2 => u64::from(NARROW_LIMIT),
        5 => u64::from(NARROW_LIMIT),
        6 => u64::from(NARROW_LIMIT),
        _ => VALUE_LIMIT,
    }
}

// The value of a line of a part.
fn value_of(part: u32, text: &[u8], at: usize) -> Result<Number, Refusal>
    ensures { as_number result ≡ read_number_at (limit_of part) text.now at }
{
    number_within(limit_of(part), text, at)
}

// The line at a place, which may be any number.
pub fn read_line(text: &[u8], at: usize) -> Option<Line>
    ensures answer { as_entry result ≡ read_line_at text.now at }
    ensures numbers { line_reading (as_entry result) ≡ given_line text.now (read_line (drop at text.now)) }
{
    let Ok(
        Number {
            value: part,
            next: item_on,
        },
    ) = read_index(text, at)
    else {
        return None;
    };
    let Ok(
        Number {
            value: item,
            next: place_on,
        },
    ) = read_index(text, item_on)
    else {
        return None;
    };
    let Ok(
        Number {
            value: place,
            next: value_on,
        },
    ) = read_index(text, place_on)
    else {
        return None;
    };
    let part = part as u32;
    let Ok(Number { value, next }) = value_of(part, text, value_on) else {
        return None;
    };
    if !stands(text, next, b'\n') {
        return None;
    }
    Some(Line {
        part,
        item: item as u32,
        place: place as u32,
        value,
        next: next + 1,
    })
}

// Is every line from a place on of the stated shape.
pub fn all_lines(text: &[u8], from: usize) -> bool
    ensures { result ≡ present (all_lines (drop from text.now)) }
{
    let mut at = from;
    // No `for`: where the next line begins is known when this one has been read.
    while at < text.len() {
        let Some(line) = read_line(text, at) else {
            return false;
        };
        at = line.next;
    }
    true
}

// The value of the line at a place, where it is the line of that part, item and place.
pub fn value_at(text: &[u8], at: usize, part: u32, item: u32, place: u32) -> Result<Number, Refusal>
    ensures answer { as_number result ≡ number_answer text.now (read_value (spot part item place) (drop at text.now)) }
    ensures numbers { reading (as_number result) ≡ given_number text.now (read_value (spot part item place) (drop at text.now)) }
{
    let Some(line) = read_line(text, at) else {
        return Err(Refusal::Text);
    };
    if line.part != part || line.item != item || line.place != place {
        return Err(Refusal::Text);
    }
    Ok(Number {
        value: line.value,
        next: line.next,
    })
}
