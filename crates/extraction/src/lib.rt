// The extractor: from a full tree of accepted transcripts to a relaxed opening of 4^L times its commitment.
#![tactic(auto)]

mod elements;
mod root;
mod vectors;

ghost use Rattle.protocol.specs.Promises.{Extracted};
ghost use Rattle.protocol.specs.Refusal.{refusal_of};

use protocol::{Item, Refusal, Residue, Settings};
use ranges::tests::require;

// The vector of the root of a full tree, every path of which the verifier accepts. Nothing is written before the last test.
pub fn extract(
    settings: Settings,
    commitment: Item,
    key: &[Residue],
    rounds: &[Residue],
    challenges: &[u32],
    leaves: &[i32],
    w: &mut [i64],
) -> Result<(), Refusal>
    ensures { Extracted settings commitment key.now rounds.now challenges.now leaves.now w.old (refusal_of result) w.new }
{
    refusals::tree::extract(settings, commitment, key, rounds, challenges, leaves, w)?;
    require(
        tree_check::every_path_accepted(settings, commitment, key, rounds, challenges, leaves),
        Refusal::Branch,
    )?;
    require(refusals::judge::growth_allowed(settings), Refusal::Growth)?;
    root::root(settings, challenges, leaves, w);
    Ok(())
}
