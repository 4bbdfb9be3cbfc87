// The check of every path of a tree (refusal 13).
#![tactic(auto)]

mod key_rows;
mod nodes;

ghost use Rattle.std.specs.Prelude.{◌≡◌};
ghost use Rattle.protocol.specs.Basic.{Provided};
ghost use Rattle.protocol.specs.Calls.{every_path};
ghost use Rattle.tree_check.specs.Nodes.{TreeGiven};

use protocol::{Item, Residue, Settings};
use ranges::tests;

// Is every path of a tree accepted. The key and the tree's tables stay as they are.
pub fn every_path_accepted(
    settings: Settings,
    commitment: Item,
    key: &[Residue],
    rounds: &[Residue],
    challenges: &[u32],
    leaves: &[i32],
) -> bool
    ensures { Provided (TreeGiven settings key.now rounds.now leaves.now)
        (result ≡ every_path settings commitment key.now rounds.now challenges.now leaves.now) }
{
    tests::allow(settings).is_ok()
        && key.len() == sizes::key_cells(settings)
        && rounds.len() == sizes::tree_round_cells(settings)
        && leaves.len() == sizes::leaf_cells(settings)
        && key_rows::every_row_accepted(settings, &commitment, key, rounds, challenges, leaves)
}
