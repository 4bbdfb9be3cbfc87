// The names line and the settings, with which every text begins.
ghost use Rattle.std.specs.Prelude.{◌≡◌, ◌≤◌, IfOk};
ghost use Rattle.protocol.specs.Answers.{as_loaded};
ghost use Rattle.text_format.specs.Text.{value_limit, narrow_limit, unsigned as unsignedOf, look_answer};
ghost use Rattle.text_format.specs.Lines.{read_settings, begun_answer};
ghost use Rattle.text_lines.specs.Header.{header_answer, place_behind, as_begun, place_of, Begins};

use crate::lines::{all_lines, value_at};
use protocol::{Number, Refusal, Residue, Settings};
use ranges::tests::{allow, require};
use text_format::{NARROW_LIMIT, TEXT_LIMIT, VALUE_LIMIT};
use text_names::begins_with_names;

// What a text begins with: its settings, and the place behind them.
#[derive(Clone, Copy)]
pub struct Begun {
    pub settings: Settings,
    pub next: usize,
}

// Why the settings that a text begins with are refused, and the place behind them; 0 where it does not begin with settings.
#[derive(Clone, Copy)]
pub struct Disallowed {
    pub refusal: Refusal,
    pub next: usize,
}

impl From<Disallowed> for Refusal {
    ghost from_gives = { λ d r. r ≡ d.refusal };

    fn from(disallowed: Disallowed) -> Refusal {
        disallowed.refusal
    }
}

// A value where a number from 0 to `most` is wanted: any other counts as one past it, which no setting, residue or exponent reaches.
#[tactic(auto, unfolding(text_format::specs::Text::value_limit, text_format::specs::Text::unsigned))]
fn unsigned(most: u64, value: i64) -> u64
    requires { most ≤ value_limit }
    ensures { result ≡ unsignedOf most value }
{
    u64::try_from(value).unwrap_or(u64::MAX).min(most + 1)
}

// A value where a modulus or a residue is wanted.
#[tactic(auto, unfolding(text_format::specs::Text::value_limit))]
pub fn unsigned_wide(value: i64) -> Residue
    ensures { result ≡ unsignedOf value_limit value }
{
    unsigned(VALUE_LIMIT, value)
}

// A value where another setting or a challenge is wanted.
#[tactic(auto, unfolding(text_format::specs::Text::value_limit, text_format::specs::Text::narrow_limit))]
pub fn unsigned_narrow(value: i64) -> u32
    ensures { result ≡ unsignedOf narrow_limit value }
{
    unsigned(u64::from(NARROW_LIMIT), value) as u32
}

// The names line and the lines of part 0: degree, depth, modulus, bound and rows. Nothing where the text does not begin with them.
pub fn read_header(text: &[u8]) -> Option<Begun>
    ensures { result ≡ header_answer text.now (read_settings text.now) }
{
    if !begins_with_names(text) {
        return None;
    }
    let Ok(
        Number {
            value: degree,
            next: depth_on,
        },
    ) = value_at(text, 22, 0, 0, 0)
    else {
        return None;
    };
    let Ok(
        Number {
            value: depth,
            next: modulus_on,
        },
    ) = value_at(text, depth_on, 0, 0, 1)
    else {
        return None;
    };
    let Ok(
        Number {
            value: modulus,
            next: bound_on,
        },
    ) = value_at(text, modulus_on, 0, 0, 2)
    else {
        return None;
    };
    let Ok(
        Number {
            value: bound,
            next: rows_on,
        },
    ) = value_at(text, bound_on, 0, 0, 3)
    else {
        return None;
    };
    let Ok(Number { value: rows, next }) = value_at(text, rows_on, 0, 0, 4) else {
        return None;
    };
    let settings = Settings {
        degree: unsigned_narrow(degree),
        depth: unsigned_narrow(depth),
        modulus: unsigned_wide(modulus),
        bound: unsigned_narrow(bound),
        rows: unsigned_narrow(rows),
    };
    Some(Begun { settings, next })
}

// A first look at a text's settings: refusals 1 to 6 and 16.
pub fn read_settings(text: &[u8]) -> Result<Settings, Refusal>
    ensures { as_loaded result ≡ look_answer text.now }
{
    require(text.len() <= TEXT_LIMIT, Refusal::Long)?;
    let Some(begun) = read_header(text) else {
        return Err(Refusal::Text);
    };
    require(all_lines(text, begun.next), Refusal::Text)?;
    allow(begun.settings)?;
    Ok(begun.settings)
}

// The settings that a text begins with, where they are allowed, and the place behind them: a caller learns the lengths of its tables by them, and the reader
// goes on there. Otherwise the text is refused, by the number that a first look gives; the place is given all the same.
pub fn allowed_settings(text: &[u8]) -> Result<Begun, Disallowed>
    ensures answer { as_begun result ≡ begun_answer text.now }
    ensures place { place_of result ≡ place_behind (header_answer text.now (read_settings text.now)) }
    ensures begins { IfOk result (λ b. Begins text.now b.settings b.next) }
{
    let Some(begun) = read_header(text) else {
        let next = 0;
        if text.len() > TEXT_LIMIT {
            return Err(Disallowed {
                refusal: Refusal::Long,
                next,
            });
        }
        return Err(Disallowed {
            refusal: Refusal::Text,
            next,
        });
    };
    let Err(refusal) = allow(begun.settings) else {
        return Ok(begun);
    };
    let next = begun.next;
    if text.len() > TEXT_LIMIT {
        return Err(Disallowed {
            refusal: Refusal::Long,
            next,
        });
    }
    if !all_lines(text, begun.next) {
        return Err(Disallowed {
            refusal: Refusal::Text,
            next,
        });
    }
    Err(Disallowed { refusal, next })
}
