// The refusals of the whole opening.
ghost use Rattle.std.specs.Prelude.{◌≡◌};
ghost use Rattle.protocol.specs.Calls.{opening_refusal};
ghost use Rattle.protocol.specs.Refusal.{refusal_of};

use protocol::{Refusal, Residue, Settings};
use ranges::tests;
use ranges::tests::require;

#[tactic(auto, unfolding(protocol::specs::Basic::first, protocol::specs::Basic::unless, protocol::specs::Calls::opening_refusal, protocol::specs::Settings::all_below, protocol::specs::Settings::has_length, protocol::specs::Settings::exponent, protocol::specs::Settings::exponents, protocol::specs::Settings::all_within))]
pub fn open(
    settings: Settings,
    key: &[Residue],
    message: &[i32],
    challenges: &[u32],
    rounds: &[Residue],
) -> Result<(), Refusal>
    ensures { refusal_of result ≡ opening_refusal settings key.now message.now challenges.now rounds.now }
{
    tests::allow(settings)?;
    let key_cells = sizes::key_cells(settings);
    let cells = sizes::cells(settings);
    require(
        (key.len() == key_cells)
            & (message.len() == cells)
            & (challenges.len() == (settings.depth as usize))
            & (rounds.len() == sizes::round_cells(settings)),
        Refusal::Size,
    )?;
    require(
        tests::all_below_wide(settings.modulus, key),
        Refusal::Residue,
    )?;
    require(tests::all_within(settings.bound, message), Refusal::Tall)?;
    let limit = sizes::exponent_count(settings);
    require(tests::all_below(limit, challenges), Refusal::Challenge)
}
