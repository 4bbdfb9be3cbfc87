// The refusals of the check of a transcript.
ghost use Rattle.std.specs.Prelude.{◌≡◌};
ghost use Rattle.protocol.specs.Calls.{check_refusal};
ghost use Rattle.protocol.specs.Refusal.{refusal_of};

use crate::rows_below;
use protocol::{Item, Refusal, Residue, Settings};
use ranges::tests;
use ranges::tests::require;

#[tactic(auto, unfolding(protocol::specs::Basic::first, protocol::specs::Basic::unless, protocol::specs::Calls::check_refusal, protocol::specs::Settings::has_length, protocol::specs::Settings::all_below, protocol::specs::Settings::exponents, protocol::specs::Settings::exponent))]
pub fn check(
    settings: Settings,
    commitment: &Item,
    key: &[Residue],
    rounds: &[Residue],
    challenges: &[u32],
) -> Result<(), Refusal>
    ensures { refusal_of result ≡ check_refusal settings commitment.now key.now rounds.now challenges.now }
{
    let q = settings.modulus;
    tests::allow(settings)?;
    let sized = (key.len() == sizes::key_cells(settings))
        & (rounds.len() == sizes::round_cells(settings))
        & (challenges.len() == (settings.depth as usize));
    require(sized, Refusal::Size)?;
    let below = tests::all_below_wide(q, key)
        & rows_below(settings, commitment)
        & tests::all_below_wide(q, rounds);
    require(below, Refusal::Residue)?;
    let limit = sizes::exponent_count(settings);
    require(tests::all_below(limit, challenges), Refusal::Challenge)
}
