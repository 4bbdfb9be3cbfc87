// Numbers as text. They are written here and not by `write!`: that promises the text where it succeeds, and does not promise to succeed.
ghost use Rattle.std.specs.Prelude.{◌≡◌, ◌+◌, ◌≤◌, ◌++◌, length};
ghost use Rattle.text_format.specs.Text.{digit_count};
ghost use Rattle.table_writer.specs.Put.{field_room, field};

use crate::filled::Filled;

// The most digits that are kept of a number.
const DIGITS: usize = 19;

// How many digits a number has, up to nineteen.
fn digit_count(n: u64) -> usize
    ensures { result ≡ digit_count n }
{
    let power = n.checked_ilog10().unwrap_or(0) as usize;
    (power + 1).min(DIGITS)
}

// A number and the byte behind it.
pub fn put_field<const N: usize>(n: u64, behind: u8, text: &mut Filled<u8, N>)
    requires { length text.old + field_room ≤ N }
    ensures { text.new ≡ text.old ++ field n behind }
{
    let start = text.len();
    let end = start + digit_count(n);
    text.grow(end + 1 - start);
    text.set(end, behind);
    let mut rest = n;
    for k in (start..end).rev() {
        text.set(k, b'0' + ((rest % 10) as u8));
        rest /= 10;
    }
}
