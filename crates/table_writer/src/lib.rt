// The table writer. The values of the tables are gathered in one table; the text is made in a place of its own with room for the longest text and one line
// more, and copied to the output slice once nothing is refused. What each function gives is said by the definitions of `protocol`'s specs/Text.antt.
#![tactic(auto)]

mod filled;
mod gather;
mod lines;
mod numbers;
mod parts;
mod refusal;
mod shown;
mod text;
mod whole;

pub use shown::{show, show_refusal};
pub use whole::{write, write_tables};
