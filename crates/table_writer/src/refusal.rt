// What the writer refuses before it looks at the text.
ghost use Rattle.std.specs.Prelude.{◌≡◌};
ghost use Rattle.protocol.specs.Refusal.{refusal_of};
ghost use Rattle.text_parts.specs.Lent.{tables_read};
ghost use Rattle.table_writer.specs.Tables.{tables_refusal};

use protocol::{Parts, Refusal, Settings};
use ranges::tests::{all_below, all_below_wide, all_within, allow, require};
use text_format::NARROW_LIMIT;
use text_parts::{Tables, fits};

// Refusals 3 to 10, and 16.
pub fn tables_refusal(settings: Settings, parts: Parts, tables: &Tables<'_>) -> Result<(), Refusal>
    ensures { refusal_of result ≡ tables_refusal settings parts (tables_read tables.now) }
{
    allow(settings)?;
    require(fits(settings, parts, tables.lengths()), Refusal::Size)?;
    let q = settings.modulus;
    require(
        all_below_wide(q, tables.key)
            & (all_below_wide(q, tables.commitment)
                & (all_below_wide(q, tables.rounds) & all_below_wide(q, tables.claims))),
        Refusal::Residue,
    )?;
    require(
        all_within(settings.bound, tables.message) & all_within(NARROW_LIMIT, tables.last),
        Refusal::Tall,
    )?;
    let limit = sizes::exponent_count(settings);
    require(all_below(limit, tables.challenges), Refusal::Challenge)
}
