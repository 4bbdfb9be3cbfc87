// All values of a text, gathered part after part before any of them is tested or stored.
#![tactic(auto)]

mod parts;

ghost use Rattle.std.specs.Prelude.{◌≡◌, true, ◌≤◌, length, OnOk};
ghost use Rattle.protocol.specs.Answers.{as_loaded};
ghost use Rattle.protocol.specs.Basic.{Provided};
ghost use Rattle.text_parts.specs.Flat.{total};
ghost use Rattle.text_lines.specs.Header.{Begins};
ghost use Rattle.text_values.specs.Parts.{RoomFor, Roomy};
ghost use Rattle.text_values.specs.Stored.{Followed, Gathered};

use protocol::{Parts, Refusal, Settings};
use text_format::TEXT_LIMIT;
use text_lines::read_settings;
use text_parts::{TABLES, fits};

// Do the lines of a text that begins with these settings go on with the required ones up to its end, where its length is allowed. All lines are then of the
// stated shape, and one walk has read them: refusals 1 to 6 and 16 do not apply.
fn read_wanted(
    parts: Parts,
    settings: Settings,
    from: usize,
    text: &[u8],
    values: &mut [i64],
) -> bool
    ensures followed { Provided (Begins text.now settings from × Roomy (length text.now) (length values.old)) (Followed parts text.now result values.new) }
    ensures room { result ≡ true → RoomFor settings parts (length values.new) }
{
    if text.len() > TEXT_LIMIT {
        return false;
    }
    let Some(next) = parts::read_parts(settings, parts, text, from, values) else {
        return false;
    };
    next == text.len()
}

// Refusals 1 to 7 of a text that begins with these settings and is read into tables of these lengths. Where nothing is refused its values stand first in
// `values`, where that has room for the values of a text of this length: a line has at least eight bytes.
pub fn read_values(
    parts: Parts,
    settings: Settings,
    from: usize,
    text: &[u8],
    lengths: [usize; TABLES],
    values: &mut [i64],
) -> Result<Settings, Refusal>
    ensures gathered { Provided (Begins text.now settings from × Roomy (length text.now) (length values.old))
        (Gathered parts lengths text.now (as_loaded result) values.new) }
    ensures room { OnOk result (total lengths ≤ length values.new) }
{
    if !read_wanted(parts, settings, from, text, values) {
        read_settings(text)?;
        return Err(Refusal::Size);
    }
    if !fits(settings, parts, lengths) {
        return Err(Refusal::Size);
    }
    Ok(settings)
}
