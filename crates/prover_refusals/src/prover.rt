// The refusals of the prover's calls.
ghost use Rattle.std.specs.Prelude.{◌≡◌, ◌&&◌, ◌∷◌, [], ◌≤◌, length};
ghost use Rattle.protocol.specs.Basic.{first, unless};
ghost use Rattle.protocol.specs.Layout.{key_cells};
ghost use Rattle.protocol.specs.Refusal.{refusal_of};
ghost use Rattle.protocol.specs.Settings.{settings_refusal, cells, has_length};
ghost use Rattle.protocol.specs.Calls.{left_small, commit_refusal, round_refusal, fold_refusal, end_refusal};

use protocol::{Refusal, Residue, Settings};
use ranges::tests;
use ranges::tests::require;

// 3 to 7 of a call on both tables, and 16, which belongs to the settings.
#[tactic(auto, unfolding(protocol::specs::Basic::first, protocol::specs::Basic::unless, protocol::specs::Settings::has_length))]
fn lengths(settings: Settings, key: &[Residue], message: &[i32]) -> Result<(), Refusal>
    ensures { refusal_of result ≡ first (settings_refusal settings ∷ unless 7 (has_length (key_cells settings) key.now && has_length (cells settings) message.now) ∷ []) }
{
    tests::allow(settings)?;
    let key_cells = sizes::key_cells(settings);
    let cells = sizes::cells(settings);
    require(
        (key.len() == key_cells) & (message.len() == cells),
        Refusal::Size,
    )
}

// 9: does what is left of a message lie within ±2^t·B. A round or a fold asks it only with t below L, the prover's end with t up to L.
fn left_small(settings: Settings, t: u32, message: &[i32]) -> bool
    requires { (settings_refusal settings ≡ 0) × (t ≤ settings.depth) × (length message.now ≡ cells settings) }
    ensures { result ≡ left_small settings t message.now }
{
    let end = sizes::left_cells(settings, t);
    let bound = sizes::left_bound(settings, t);
    tests::all_within(bound, &message[..end])
}

#[tactic(auto, unfolding(protocol::specs::Basic::first, protocol::specs::Basic::unless, protocol::specs::Calls::commit_refusal, protocol::specs::Settings::all_below, protocol::specs::Settings::all_within))]
pub fn commit(settings: Settings, key: &[Residue], message: &[i32]) -> Result<(), Refusal>
    ensures { refusal_of result ≡ commit_refusal settings key.now message.now }
{
    lengths(settings, key, message)?;
    require(
        tests::all_below_wide(settings.modulus, key),
        Refusal::Residue,
    )?;
    require(tests::all_within(settings.bound, message), Refusal::Tall)
}

#[tactic(auto, unfolding(protocol::specs::Basic::first, protocol::specs::Basic::unless, protocol::specs::Calls::round_refusal, protocol::specs::Calls::moving_small, protocol::specs::Settings::all_below, protocol::specs::Settings::has_length))]
pub fn round(settings: Settings, t: u32, key: &[Residue], message: &[i32]) -> Result<(), Refusal>
    ensures { refusal_of result ≡ round_refusal settings t key.now message.now }
{
    lengths(settings, key, message)?;
    require(
        tests::all_below_wide(settings.modulus, key),
        Refusal::Residue,
    )?;
    require(
        t >= settings.depth || left_small(settings, t, message),
        Refusal::Tall,
    )?;
    require(t < settings.depth, Refusal::Turn)
}

#[tactic(auto, unfolding(protocol::specs::Basic::first, protocol::specs::Basic::unless, protocol::specs::Calls::fold_refusal, protocol::specs::Calls::moving_small, protocol::specs::Settings::all_below, protocol::specs::Settings::has_length, protocol::specs::Settings::exponent))]
pub fn fold(
    settings: Settings,
    t: u32,
    e: u32,
    key: &[Residue],
    message: &[i32],
) -> Result<(), Refusal>
    ensures { refusal_of result ≡ fold_refusal settings t e key.now message.now }
{
    lengths(settings, key, message)?;
    require(
        tests::all_below_wide(settings.modulus, key),
        Refusal::Residue,
    )?;
    require(
        t >= settings.depth || left_small(settings, t, message),
        Refusal::Tall,
    )?;
    require(e < sizes::exponent_count(settings), Refusal::Challenge)?;
    require(t < settings.depth, Refusal::Turn)
}

#[tactic(auto, unfolding(protocol::specs::Basic::first, protocol::specs::Basic::unless, protocol::specs::Calls::end_refusal, protocol::specs::Calls::ending_small, protocol::specs::Settings::has_length))]
pub fn end(settings: Settings, t: u32, message: &[i32]) -> Result<(), Refusal>
    ensures { refusal_of result ≡ end_refusal settings t message.now }
{
    tests::allow(settings)?;
    require(message.len() == sizes::cells(settings), Refusal::Size)?;
    require(
        t > settings.depth || left_small(settings, t, message),
        Refusal::Tall,
    )?;
    require(t == settings.depth, Refusal::Turn)
}
