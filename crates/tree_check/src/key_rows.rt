// The check of a tree row by row: each has its part of the key, and its items in the rounds.
ghost use Rattle.std.specs.Prelude.{◌≡◌, ◌<◌, length};
ghost use Rattle.protocol.specs.Basic.{every, Provided};
ghost use Rattle.protocol.specs.Element.{value_row};
ghost use Rattle.protocol.specs.Layout.{tree_challenges};
ghost use Rattle.protocol.specs.Rows.{key_row, row_items};
ghost use Rattle.protocol.specs.TreeCheck.{tree_accepted};
ghost use Rattle.tree_check.specs.Nodes.{Sized, TreeGiven};

use protocol::{Residue, Settings, WIDTH};

// Is every path accepted in row i.
fn row_accepted(
    settings: Settings,
    i: usize,
    commitment: &[Residue],
    key: &[Residue],
    rounds: &[Residue],
    challenges: &[u32],
    leaves: &[i32],
) -> bool
    requires { Sized settings (length commitment.now) (length key.now) (length rounds.now) (length leaves.now) × (i < settings.rows) }
    ensures { Provided (TreeGiven settings key.now rounds.now leaves.now)
        (result ≡ tree_accepted settings (row_items settings (tree_challenges settings) rounds.now i) challenges.now leaves.now settings.depth 0 0
        (value_row commitment.now i) (key_row settings key.now i)) }
{
    let at = i * WIDTH;
    let n = sizes::cells(settings);
    let from = i * n;
    let to = from + n;
    let start = equations::rounds::row_start(settings, rounds.len(), i);
    crate::nodes::root_accepted(
        settings,
        &commitment[at..],
        &key[from..to],
        &rounds[start..],
        challenges,
        leaves,
    )
}

// Is every path accepted in every row.
pub(crate) fn every_row_accepted(
    settings: Settings,
    commitment: &[Residue],
    key: &[Residue],
    rounds: &[Residue],
    challenges: &[u32],
    leaves: &[i32],
) -> bool
    requires { Sized settings (length commitment.now) (length key.now) (length rounds.now) (length leaves.now) }
    ensures { Provided (TreeGiven settings key.now rounds.now leaves.now)
        (result ≡ every settings.rows (λ i. tree_accepted settings (row_items settings (tree_challenges settings) rounds.now i) challenges.now leaves.now
        settings.depth 0 0 (value_row commitment.now i) (key_row settings key.now i))) }
{
    (0..settings.rows as usize).all(|i| row_accepted(
        settings, i, commitment, key, rounds, challenges, leaves,
    ))
}
