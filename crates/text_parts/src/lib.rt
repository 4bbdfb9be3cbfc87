// The parts of a text: what their lines are. One description for the reader and for the writer.
#![tactic(auto)]

ghost use Rattle.std.specs.Prelude.{◌≡◌};
ghost use Rattle.text_format.specs.Text.{shape, settings_shape, shape_size};
ghost use Rattle.text_parts.specs.Parts.{as_shape, next_cell, part_of, lengths_of, lengths_are, tested_by, test_number};
ghost use Rattle.text_parts.specs.Lent.{tables_read, tables_lent};

use protocol::{Parts, ROWS, Refusal, Residue, Settings};
use ranges::tests::DEPTH_MOST;
use text_format::TEXT_LIMIT;

// How many parts there are behind the settings, each with a table: `table_count` of the definitions. The table of part k + 1 has place k in a list of them.
pub const TABLES: usize = 7;

// The room for the values of every text that is not too long, since a line has at least eight bytes: `values_room` of the definitions.
pub const VALUES: usize = TEXT_LIMIT / 8;

// The largest key, message or table of round polynomials or claims of a text, with a line for each number: `cells_room` of the definitions.
pub const CELLS: usize = VALUES;

// The tables of parts 1 to 7.
#[derive(Clone, Copy)]
pub struct Tables<'a> {
    pub key: &'a [Residue],
    pub message: &'a [i32],
    pub commitment: &'a [Residue],
    pub rounds: &'a [Residue],
    pub challenges: &'a [u32],
    pub last: &'a [i32],
    pub claims: &'a [Residue],
}

impl Tables<'_> {
    // How long they are.
    #[tactic(auto, unfolding(crate::specs::Parts::lengths_of))]
    pub fn lengths(&self) -> [usize; TABLES]
        ensures { result ≡ lengths_of (tables_read self.now) }
    {
        let Tables {
            key,
            message,
            commitment,
            rounds,
            challenges,
            last,
            claims,
        } = *self;
        [
            key.len(),
            message.len(),
            commitment.len(),
            rounds.len(),
            challenges.len(),
            last.len(),
            claims.len(),
        ]
    }
}

// The same where they are lent to be written.
#[derive(Drop)]
pub struct TablesMut<'a> {
    pub key: &'a mut [Residue],
    pub message: &'a mut [i32],
    pub commitment: &'a mut [Residue],
    pub rounds: &'a mut [Residue],
    pub challenges: &'a mut [u32],
    pub last: &'a mut [i32],
    pub claims: &'a mut [Residue],
}

impl TablesMut<'_> {
    // How long they are.
    #[tactic(auto, unfolding(crate::specs::Parts::lengths_of))]
    pub fn lengths(&self) -> [usize; TABLES]
        ensures { result ≡ lengths_of (tables_lent self.now) }
    {
        [
            self.key.len(),
            self.message.len(),
            self.commitment.len(),
            self.rounds.len(),
            self.challenges.len(),
            self.last.len(),
            self.claims.len(),
        ]
    }
}

// A part: its number, its items and the places of an item.
#[derive(Clone, Copy)]
pub struct Shape {
    pub part: u32,
    pub items: u32,
    pub places: u32,
}

impl Shape {
    // How many lines it has.
    #[tactic(auto, unfolding(text_format::specs::Text::shape_size))]
    pub fn size(self) -> usize
        ensures { result ≡ shape_size (as_shape self) }
    {
        (self.items as usize) * (self.places as usize)
    }
}

// A line of a part.
#[derive(Clone, Copy)]
pub struct Cell {
    pub item: u32,
    pub place: u32,
}

impl Cell {
    // The line behind it; a line outside its item, or of the last item that there can be, stays.
    #[tactic(auto, unfolding(crate::specs::Parts::next_cell, protocol::specs::Basic::choose))]
    pub fn next(self, places: u32) -> Cell
        ensures { result ≡ next_cell places self }
    {
        if self.place >= places {
            return self;
        }
        if self.place + 1 < places {
            return Cell {
                item: self.item,
                place: self.place + 1,
            };
        }
        if self.item == u32::MAX {
            return self;
        }
        Cell {
            item: self.item + 1,
            place: 0,
        }
    }
}

// A part that is not there has no items.
#[tactic(auto, unfolding(text_format::specs::Text::shape, protocol::specs::Basic::choose))]
fn part_of(part: u32, there: bool, items: u32, places: u32) -> Shape
    ensures { as_shape result ≡ shape part there items places }
{
    Shape {
        part,
        items: if there { items } else { 0 },
        places,
    }
}

// Part 0: its one item is the settings.
#[tactic(auto, unfolding(text_format::specs::Text::settings_shape, text_format::specs::Text::shape, protocol::specs::Basic::choose))]
pub fn settings_shape() -> Shape
    ensures { as_shape result ≡ settings_shape }
{
    Shape {
        part: 0,
        items: 1,
        places: 5,
    }
}

// The part of a number; part 0 where there is none of that number, and where the depth or the rows are more than are allowed.
pub fn shape_of(settings: Settings, parts: Parts, part: u32) -> Shape
    ensures { as_shape result ≡ part_of settings parts part }
{
    let degree = settings.degree;
    let depth = settings.depth;
    if depth > DEPTH_MOST {
        return settings_shape();
    }
    let rows = settings.rows;
    if (rows as usize) > ROWS {
        return settings_shape();
    }
    match part {
        1 => part_of(1, parts.key, rows * (1u32 << depth), degree),
        2 => part_of(2, parts.message, 1u32 << depth, degree),
        3 => part_of(3, parts.commitment, rows, degree),
        4 => part_of(4, parts.rounds, rows * (3 * depth), degree),
        5 => part_of(5, parts.challenges, depth, 1),
        6 => part_of(6, parts.last, 1, degree),
        7 => part_of(7, parts.claims, rows * depth, degree),
        _ => settings_shape(),
    }
}

// How many lines a part of a text has.
pub fn part_size(settings: Settings, parts: Parts, part: u32) -> usize
    ensures { result ≡ shape_size (part_of settings parts part) }
{
    shape_of(settings, parts, part).size()
}

// Which refusal tests the values of the table at place k: residues, the bound, exponents; none of the final element, or where there is no table.
#[tactic(auto, unfolding(crate::specs::Parts::tested_by))]
pub fn tested_by(k: usize) -> Option<Refusal>
    ensures { test_number result ≡ tested_by k }
{
    match k {
        0 | 2 | 3 | 6 => Some(Refusal::Residue),
        1 => Some(Refusal::Tall),
        4 => Some(Refusal::Challenge),
        _ => None,
    }
}

// Refusal 7 of lent tables: has each of them exactly its length.
pub fn fits(settings: Settings, parts: Parts, lengths: [usize; TABLES]) -> bool
    ensures { result ≡ lengths_are (part_of settings parts) lengths }
{
    (0..TABLES).all(|k| lengths[k] == part_size(settings, parts, (k as u32) + 1))
}
