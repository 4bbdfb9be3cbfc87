// The names line, the first of every text. What is asked of it is said by `begins_with_names` of `text_format`'s specs/Text.antt.
#![tactic(auto)]

ghost use Rattle.std.specs.Prelude.{◌≡◌, ◌≤◌, length, take};
ghost use Rattle.text_format.specs.Text.{begins as beginsWith, begins_with_names};
ghost use Rattle.text_names.specs.Words.{word};

// The line has 22 bytes: those of "part ite" and of "m place " as numbers, the first byte the lowest, and then "value" and the line feed.
const LENGTH: usize = 22;

const PART_ITE: u64 = 0x6574_6920_7472_6170;

const M_PLACE: u64 = 0x2065_6361_6c70_206d;

// The first eight bytes of a text as one number.
fn first_word(text: &[u8]) -> u64
    requires { 8 ≤ length text.now }
    ensures { result ≡ word (take 8 text.now) }
{
    u64::from_le_bytes([
        text[0], text[1], text[2], text[3], text[4], text[5], text[6], text[7],
    ])
}

// Does a text begin with the given bytes, one by one.
fn begins(text: &[u8], with: &[u8]) -> bool
    ensures { result ≡ beginsWith with.now text.now }
{
    if text.len() < with.len() {
        return false;
    }
    (0..with.len()).all(|i| text[i] == with[i])
}

// Does a text begin with the names line. A text that ends inside it has no two words to read.
pub fn begins_with_names(text: &[u8]) -> bool
    ensures { result ≡ begins_with_names text.now }
{
    if text.len() < LENGTH {
        return false;
    }
    if first_word(text) != PART_ITE {
        return false;
    }
    if first_word(&text[8..]) != M_PLACE {
        return false;
    }
    begins(&text[16..], b"value\n")
}
