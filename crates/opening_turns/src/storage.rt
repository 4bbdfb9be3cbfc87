// The table of the round elements of a whole opening: item 3t + j is c_j of round t + 1, an element for each row. A round's items are written into it directly.
ghost use Rattle.std.specs.Prelude.{◌≡◌, ◌+◌, ◌≤◌, length, drop};
ghost use Rattle.protocol.specs.Basic.{Provided};
ghost use Rattle.protocol.specs.Layout.{item_cells, polynomial_at};
ghost use Rattle.protocol.specs.Calls.{round_refusal};
ghost use Rattle.residues.specs.Lists.{spliced};
ghost use Rattle.plain_products.specs.Rowwise.{row_places};
ghost use Rattle.opening_rounds.specs.Rounds.{round_item, Continuing};
ghost use Rattle.opening_turns.specs.Turns.{rest_stored};

use protocol::{Residue, Settings};

// c0 of round t + 1, where there is such a round.
pub fn write_first(
    settings: Settings,
    t: u32,
    key: &[Residue],
    message: &[i32],
    rounds: &mut [Residue],
)
    ensures { Provided (round_refusal settings t key.now message.now ≡ 0)
        (Provided (polynomial_at settings t + item_cells settings ≤ length rounds.old)
        (rounds.new ≡ spliced (row_places settings.degree (round_item settings t key.now message.now 0)) (polynomial_at settings t)
        (item_cells settings) rounds.old)) × Provided (settings.depth ≤ t) (rounds.new ≡ rounds.old) }
{
    if t >= settings.depth {
        return;
    }
    let at = sizes::polynomial_at(settings, t);
    if rounds.len() < at {
        return;
    }
    opening_rounds::first_item(settings, t, key, message, &mut rounds[at..]);
}

// c1 and c2 of round t + 1, whose c0 stands there and whose claim is given.
pub fn write_rest(
    settings: Settings,
    t: u32,
    key: &[Residue],
    message: &[i32],
    claims: &[Residue],
    rounds: &mut [Residue],
)
    ensures { Provided (Continuing settings t key.now message.now claims.now (drop (polynomial_at settings t) rounds.old))
        (rounds.new ≡ rest_stored settings t key.now message.now rounds.old) }
{
    let at = sizes::polynomial_at(settings, t);
    if rounds.len() < at {
        return;
    }
    opening_rounds::rest(settings, t, key, message, claims, &mut rounds[at..]);
}
