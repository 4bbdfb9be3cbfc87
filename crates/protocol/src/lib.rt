// The declared types of the public calls (PROTOCOL 8.1, by value), and the numbers that their sizes go by.
#![tactic(auto)]

ghost use Rattle.std.specs.Prelude.{◌≡◌};
ghost use Rattle.protocol.specs.Refusal.{number};

// How many places an element has that is passed by value: `width` of the definitions.
pub const WIDTH: usize = 128;

// How many rows a key can have: `rows_most` of the definitions.
pub const ROWS: usize = 4;

// How many places there are for an element of each row that is passed by value, WIDTH for each: `rows_width` of the definitions.
pub const ROWS_WIDTH: usize = ROWS * WIDTH;

// How many challenges a record holds, one for each round that there can be: `slots` of the definitions.
pub const SLOTS: usize = 8;

// The residues of a key, a commitment, a round polynomial or a claim.
pub type Residue = u64;

// The one modulus at which the degree 128 is allowed: `transform_modulus` of the definitions.
pub const TRANSFORM_MODULUS: Residue = 12289;

// PROTOCOL 1.1.
#[derive(Clone, Copy)]
pub struct Settings {
    pub degree: u32,
    pub depth: u32,
    pub modulus: Residue,
    pub bound: u32,
    pub rows: u32,
}

// Why a call is refused (PROTOCOL 7.1): the first test that fails says so.
#[derive(Clone, Copy, Debug, PartialEq, Eq)]
pub enum Refusal {
    Long,
    Text,
    Degree,
    Depth,
    Modulus,
    Bound,
    Size,
    Residue,
    Tall,
    Challenge,
    Turn,
    Twin,
    Branch,
    Growth,
    Slack,
    Rows,
}

impl Refusal {
    // Its number in the table of refusals.
    pub fn number(self) -> u32
        ensures { result ≡ number self }
    {
        match self {
            Refusal::Long => 1,
            Refusal::Text => 2,
            Refusal::Degree => 3,
            Refusal::Depth => 4,
            Refusal::Modulus => 5,
            Refusal::Bound => 6,
            Refusal::Size => 7,
            Refusal::Residue => 8,
            Refusal::Tall => 9,
            Refusal::Challenge => 10,
            Refusal::Turn => 11,
            Refusal::Twin => 12,
            Refusal::Branch => 13,
            Refusal::Growth => 14,
            Refusal::Slack => 15,
            Refusal::Rows => 16,
        }
    }
}

// What a verifier says: of a round that is met `Holds`, of a transcript or its end one of the other two, of a round that is not met the last.
#[derive(Clone, Copy, Debug, PartialEq, Eq)]
pub enum Verdict {
    Holds,
    Accepted,
    Rejected,
}

// The record of a verifier (PROTOCOL 4.1), with the claims of all rows.
#[derive(Clone, Copy)]
pub struct Session {
    pub settings: Settings,
    pub done: u32,
    pub claims: [Residue; ROWS_WIDTH],
    pub challenges: [u32; SLOTS],
    pub closed: bool,
}

// What a session's start or move hands back: what it says or why it is refused, and the record that follows. A refused move hands back the record that it was
// given, a refused start the closed record of zeros.
#[derive(Clone, Copy)]
pub struct Handed<T, R> {
    pub said: Result<T, Refusal>,
    pub next: R,
}

// What there is for each row has room for four; the places past the rows are 0.

// An element of each row: a commitment, or one of a round polynomial's three.
pub type Item = [Residue; ROWS_WIDTH];

// A round polynomial (PROTOCOL 8.4): c0, c1 and c2, each of all rows.
pub type Polynomial = [Item; 3];

// What a whole opening gives; its round elements are in the table lent for them.
#[derive(Clone, Copy)]
pub struct Outcome {
    pub commitment: Item,
    pub last: [i32; WIDTH],
    pub verdict: Verdict,
}

// Which parts a text has (PROTOCOL 9.2).
#[derive(Clone, Copy)]
pub struct Parts {
    pub key: bool,
    pub message: bool,
    pub commitment: bool,
    pub rounds: bool,
    pub challenges: bool,
    pub last: bool,
    pub claims: bool,
}

// A number of a text (PROTOCOL 9.4) and the place behind it.
#[derive(Clone, Copy)]
pub struct Number {
    pub value: i64,
    pub next: usize,
}

// A line of a text and the place behind it.
#[derive(Clone, Copy)]
pub struct Line {
    pub part: u32,
    pub item: u32,
    pub place: u32,
    pub value: i64,
    pub next: usize,
}
