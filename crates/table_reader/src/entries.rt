// Refusals 8, 9 and 10 of the values of a text.
ghost use Rattle.std.specs.Prelude.{◌≡◌, true, map, ◌≤◌, ltb, length};
ghost use Rattle.protocol.specs.Basic.{all, Provided};
ghost use Rattle.protocol.specs.Refusal.{number, refusal_of};
ghost use Rattle.protocol.specs.Settings.{settings_refusal};
ghost use Rattle.text_format.specs.Text.{value_limit, unsigned, entries_refusal};
ghost use Rattle.text_parts.specs.Flat.{total};
ghost use Rattle.table_reader.specs.Cut.{cut_tables, passes, all_pass};

use protocol::{Refusal, Settings};
use ranges::tests::{all_within, require};
use text_parts::{TABLES, tested_by};

// Is every value, where numbers from 0 on are wanted, below the limit.
fn all_below(limit: u64, values: &[i64]) -> bool
    ensures { result ≡ all (λ x. ltb x limit) (map (unsigned value_limit) values.now) }
{
    values.iter().all(|v| text_lines::unsigned_wide(*v) < limit)
}

// Do the values of the table at place k pass the test of a refusal; they do where it does not test them.
fn pass(settings: Settings, refusal: Refusal, k: usize, values: &[i64]) -> bool
    ensures { Provided (settings_refusal settings ≡ 0) (result ≡ passes settings (number refusal) k values.now) }
{
    let Some(test) = tested_by(k) else {
        return true;
    };
    if test != refusal {
        return true;
    }
    match refusal {
        Refusal::Residue => all_below(settings.modulus, values),
        Refusal::Tall => all_within(u64::from(settings.bound), values),
        Refusal::Challenge => all_below(u64::from(sizes::exponent_count(settings)), values),
        _ => true,
    }
}

// Do the values of all tables that a refusal tests pass it. The values of tables of these lengths stand one after the other.
fn all_pass(settings: Settings, refusal: Refusal, lengths: [usize; TABLES], values: &[i64]) -> bool
    requires { total lengths ≤ length values.now }
    ensures { Provided (settings_refusal settings ≡ 0) (result ≡ all_pass settings (number refusal) lengths values.now) }
{
    let mut start: usize = 0;
    for k in 0..TABLES {
        let end = start + lengths[k];
        if !pass(settings, refusal, k, &values[start..end]) {
            return false;
        }
        start = end;
    }
    true
}

// The first of the three refusals that applies.
pub fn refusal(settings: Settings, lengths: [usize; TABLES], values: &[i64]) -> Result<(), Refusal>
    requires { total lengths ≤ length values.now }
    ensures { Provided (settings_refusal settings ≡ 0) (refusal_of result ≡ entries_refusal settings true (cut_tables lengths values.now)) }
{
    require(
        all_pass(settings, Refusal::Residue, lengths, values),
        Refusal::Residue,
    )?;
    require(
        all_pass(settings, Refusal::Tall, lengths, values),
        Refusal::Tall,
    )?;
    require(
        all_pass(settings, Refusal::Challenge, lengths, values),
        Refusal::Challenge,
    )
}
