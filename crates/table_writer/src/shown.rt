// Bytes for a program to print, put at the front of a slice that has room for them.
ghost use Rattle.text_format.specs.Programs.{refused_line};
ghost use Rattle.table_writer.specs.Shown.{Shown};

use crate::filled::Filled;
use crate::numbers::put_field;

// How many bytes were put: all of them, or none where there is no room for all.
pub fn show(bytes: &[u8], out: &mut [u8]) -> usize
    ensures { Shown bytes.now out.old result out.new }
{
    let count = bytes.len();
    if count > out.len() {
        return 0;
    }
    out[..count].copy_from_slice(bytes);
    count
}

// The room for the line of a refusal: 8 bytes, nineteen digits and a line feed.
const REFUSAL_LINE: usize = 28;

// The line for a refusal, by its number.
pub fn show_refusal(refusal: u32, out: &mut [u8]) -> usize
    ensures { Shown (refused_line refusal) out.old result out.new }
{
    let mut line: Filled<u8, REFUSAL_LINE> = Filled::new(0);
    line.extend(b"refused ");
    put_field(u64::from(refusal), b'\n', &mut line);
    show(line.as_slice(), out)
}
