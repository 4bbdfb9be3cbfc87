// The lines of a text: its numbers, its lines and the settings that it begins with. What each function gives is said by the definitions of
// `protocol`'s specs/Text.antt and specs/Lines.antt.
#![tactic(auto)]

mod header;
mod lines;
mod numbers;

pub use header::{
    Begun, Disallowed, allowed_settings, read_header, read_settings, unsigned_narrow, unsigned_wide,
};
pub use lines::{read_line, value_at};
pub use numbers::{read_count, read_number};
