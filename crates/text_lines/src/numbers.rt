// The number readers.
ghost use Rattle.std.specs.Prelude.{◌≡◌, true, ◌+◌, ◌*◌, ◌≤◌, min, drop};
ghost use Rattle.protocol.specs.Answers.{as_number};
ghost use Rattle.text_format.specs.Text.{value_limit, narrow_limit, digit_first, proper_digits, digit_run, plain, read_count, read_number, read_count_at, read_number_at, reading};
ghost use Rattle.text_format.specs.Lines.{given_number};
ghost use Rattle.text_lines.specs.Digits.{past_limit, kept_run, run_answer};

use protocol::{Number, Refusal};
use text_format::{NARROW_LIMIT, VALUE_LIMIT};

// Ten times this is past the largest magnitude, and has 64 bits: a number is held at it before it is multiplied. `full` of the definitions.
const FULL: u64 = (VALUE_LIMIT + 1) / 2;

// A run of digits: its number, or some number past the largest magnitude where it is past it; and the place behind it.
#[derive(Clone, Copy)]
pub struct Run {
    pub value: u64,
    pub next: usize,
}

// Does a digit stand at a place.
fn digit_at(text: &[u8], at: usize) -> bool
    ensures { result ≡ digit_first (drop at text.now) }
{
    text.get(at).is_some_and(|b| b.is_ascii_digit())
}

// A number with one digit more; some number past the largest magnitude where it is past it.
fn with_digit(value: u64, digit: u8) -> u64
    ensures { min result past_limit ≡ min (value * 10 + digit) past_limit }
{
    value.min(FULL) * 10 + u64::from(digit)
}

// The digits from a place on, where one stands. However many they are, the number stays small: once it is past the largest magnitude it stays there.
fn digit_run(text: &[u8], at: usize) -> Run
    requires { digit_first (drop at text.now) ≡ true }
    ensures { kept_run result ≡ run_answer text.now (digit_run 0 (drop at text.now)) }
{
    let mut value = u64::from(text[at] - b'0');
    let mut next = at + 1;
    // No `for`: where the digits end is known when they have been read.
    while digit_at(text, next) {
        value = with_digit(value, text[next] - b'0');
        next += 1;
    }
    Run { value, next }
}

// Does a number stand at a place: a digit, and no leading zero.
fn proper_digits(text: &[u8], at: usize) -> bool
    ensures { result ≡ proper_digits (drop at text.now) }
{
    if !digit_at(text, at) {
        return false;
    }
    text[at] != b'0' || !digit_at(text, at + 1)
}

// A number without a sign that is at most `most`. The place may be any number.
pub fn count_within(most: u64, text: &[u8], at: usize) -> Result<Number, Refusal>
    requires { most ≤ value_limit }
    ensures answer { as_number result ≡ read_count_at most text.now at }
    ensures numbers { reading (as_number result) ≡ given_number text.now (plain (read_count most (drop at text.now))) }
{
    if !proper_digits(text, at) {
        return Err(Refusal::Text);
    }
    let run = digit_run(text, at);
    if run.value > most {
        return Err(Refusal::Text);
    }
    Ok(Number {
        value: run.value as i64,
        next: run.next,
    })
}

// A number of a magnitude of at most `most`, which may be negative. The place may be any number.
pub fn number_within(most: u64, text: &[u8], at: usize) -> Result<Number, Refusal>
    requires { most ≤ value_limit }
    ensures answer { as_number result ≡ read_number_at most text.now at }
    ensures numbers { reading (as_number result) ≡ given_number text.now (read_number most (drop at text.now)) }
{
    if at >= text.len() {
        return Err(Refusal::Text);
    }
    if text[at] != b'-' {
        return count_within(most, text, at);
    }
    let Ok(Number { value, next }) = count_within(most, text, at + 1) else {
        return Err(Refusal::Text);
    };
    if value == 0 {
        return Err(Refusal::Text);
    }
    Ok(Number {
        value: -value,
        next,
    })
}

// A part, an item or a place: a number without a sign. The place in the text may be any number.
pub fn read_count(text: &[u8], at: usize) -> Result<Number, Refusal>
    ensures answer { as_number result ≡ read_count_at narrow_limit text.now at }
    ensures numbers { reading (as_number result) ≡ given_number text.now (plain (read_count narrow_limit (drop at text.now))) }
{
    count_within(u64::from(NARROW_LIMIT), text, at)
}

// A value: a number that may be negative. The place in the text may be any number.
pub fn read_number(text: &[u8], at: usize) -> Result<Number, Refusal>
    ensures answer { as_number result ≡ read_number_at value_limit text.now at }
    ensures numbers { reading (as_number result) ≡ given_number text.now (read_number value_limit (drop at text.now)) }
{
    number_within(VALUE_LIMIT, text, at)
}
