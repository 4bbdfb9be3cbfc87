// Values of a text, stored in the tables that are lent for them.
ghost use Rattle.std.specs.Prelude.{◌≡◌, ◌≤◌, length, map, take, drop, ℤ};
ghost use Rattle.text_format.specs.Text.{value_limit, narrow_limit, unsigned as unsignedOf};
ghost use Rattle.text_parts.specs.Parts.{lengths_of};
ghost use Rattle.text_parts.specs.Flat.{total};
ghost use Rattle.text_parts.specs.Lent.{tables_lent, Kept};
ghost use Rattle.table_reader.specs.Cut.{cut_tables, narrowed, narrow_tables};

use protocol::Residue;
use text_format::NARROW_LIMIT;
use text_parts::TablesMut;

// What a table holds for a value of a text.
trait Held: Copy {
    ghost held: { ℤ → Self };

    fn held(value: i64) -> Self
        ensures { result ≡ held value };
}

// A message or a final element. The lines of these parts have no value that is not narrow; such a value would be 0.
impl Held for i32 {
    ghost held = { narrowed };

    fn held(value: i64) -> i32 {
        if value.unsigned_abs() > u64::from(NARROW_LIMIT) {
            return 0;
        }
        value as i32
    }
}

// Residues.
impl Held for Residue {
    ghost held = { unsignedOf value_limit };

    fn held(value: i64) -> Residue {
        text_lines::unsigned_wide(value)
    }
}

// Challenges.
impl Held for u32 {
    ghost held = { unsignedOf narrow_limit };

    fn held(value: i64) -> u32 {
        text_lines::unsigned_narrow(value)
    }
}

// The first values, as many as the table has; those behind them are left.
fn fill<'a, T: Held>(values: &'a [i64], table: &mut [T]) -> &'a [i64]
    requires { length table.old ≤ length values.now }
    ensures stored { table.new ≡ map T.held (take (length table.old) values.now) }
    ensures left { result.now ≡ drop (length table.old) values.now }
{
    // By index: of a table that is written through `iter_mut` its length alone is known behind the loop.
    for i in 0..table.len() {
        table[i] = T::held(values[i]);
    }
    &values[table.len()..]
}

// The values of the seven tables, one table after the other.
pub fn all(values: &[i64], tables: &mut TablesMut<'_>)
    requires { total (lengths_of (tables_lent tables.old)) ≤ length values.now }
    ensures kept { Kept tables.old tables.new }
    ensures lengths { lengths_of (tables_lent tables.new) ≡ lengths_of (tables_lent tables.old) }
    ensures stored { tables_lent tables.new ≡ narrow_tables (cut_tables (lengths_of (tables_lent tables.old)) values.now) }
{
    let after_key = fill(values, tables.key);
    let after_message = fill(after_key, tables.message);
    let after_commitment = fill(after_message, tables.commitment);
    let after_rounds = fill(after_commitment, tables.rounds);
    let after_challenges = fill(after_rounds, tables.challenges);
    let after_last = fill(after_challenges, tables.last);
    fill(after_last, tables.claims);
}
