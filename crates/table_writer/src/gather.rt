// The values of tables, one table after the other, in one list.
ghost use Rattle.std.specs.Prelude.{◌≡◌, map, ◌+◌, ◌≤◌, ◌++◌, leb, pos, length, ℤ};
ghost use Rattle.text_parts.specs.Parts.{lengths_of, values_room};
ghost use Rattle.text_parts.specs.Lent.{tables_read};
ghost use Rattle.text_parts.specs.Flat.{total, joined};
ghost use Rattle.table_writer.specs.Tables.{capped, gathered};

use crate::filled::Filled;
use protocol::Residue;
use text_format::VALUE_LIMIT;
use text_parts::{TABLES, Tables, VALUES};

// A number of a table, or a setting, as a value.
pub trait Value: Copy {
    ghost value: { Self → ℤ };

    fn value(self) -> i64
        ensures { result ≡ value self };
}

// A challenge.
impl Value for u32 {
    ghost value = { pos };

    fn value(self) -> i64 {
        i64::from(self)
    }
}

// A number of a message or of a final element.
impl Value for i32 {
    ghost value = { λ x. x };

    fn value(self) -> i64 {
        i64::from(self)
    }
}

// A residue or the modulus. What is past the limit of values, which neither is, is one past it.
impl Value for Residue {
    ghost value = { capped };

    #[tactic(auto, unfolding(crate::specs::Tables::capped, text_format::specs::Text::value_limit))]
    fn value(self) -> i64 {
        self.min(VALUE_LIMIT + 1) as i64
    }
}

// The values of all tables.
pub type Values = Filled<i64, VALUES>;

// Is there room for the values of tables of these lengths. Where there is none their text is too long: a line has at least eight bytes.
pub fn room(lengths: [usize; TABLES]) -> bool
    ensures { result ≡ leb (total lengths) values_room }
{
    let mut start: usize = 0;
    for length in lengths {
        if length > VALUES - start {
            return false;
        }
        start += length;
    }
    true
}

// The values of a table behind others.
fn put<T: Value>(table: &[T], values: &mut Values)
    requires { length values.old + length table.now ≤ values_room }
    ensures { values.new ≡ values.old ++ map T.value table.now }
{
    for x in table {
        values.push(x.value());
    }
}

// The values of the seven tables.
#[tactic(auto, unfolding(crate::specs::Tables::gathered, text_parts::specs::Flat::start, text_parts::specs::Flat::total, text_parts::specs::Parts::lengths_of))]
pub fn all(tables: &Tables<'_>, values: &mut Values)
    requires { length values.old + total (lengths_of (tables_read tables.now)) ≤ values_room }
    ensures { values.new ≡ values.old ++ joined (gathered (tables_read tables.now)) }
{
    put(tables.key, values);
    put(tables.message, values);
    put(tables.commitment, values);
    put(tables.rounds, values);
    put(tables.challenges, values);
    put(tables.last, values);
    put(tables.claims, values);
}
