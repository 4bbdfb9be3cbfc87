// The refusals of the verifier's session. Records and elements are lent (`Lent` of the definitions). The step and the three elements of a round are parameters one by
// one: a contract over a struct that holds references has to name each part at entry or at exit, as `lent.entry.c0.now`, which is no plainer.
ghost use Rattle.std.specs.Prelude.{◌≡◌, ◌&&◌, length};
ghost use Rattle.protocol.specs.Basic.{Provided};
ghost use Rattle.protocol.specs.Layout.{rows_width};
ghost use Rattle.protocol.specs.Refusal.{refusal_of};
ghost use Rattle.protocol.specs.Session.{start_refusal, session_round_refusal, session_end_refusal};
ghost use Rattle.protocol.specs.Settings.{settings_refusal, residue_rows};
ghost use Rattle.verifier_refusals.specs.Lent.{record_of, lent_rows, lent_polynomial, StartLent, RoundLent};

use crate::{Progress, lent_below, rows_below};
use protocol::{Refusal, Residue, Settings};
use ranges::tests;
use ranges::tests::require;

#[tactic(auto, unfolding(protocol::specs::Basic::first, protocol::specs::Basic::unless, protocol::specs::Session::start_refusal))]
pub fn start(settings: Settings, step: usize, commitment: &[Residue]) -> Result<(), Refusal>
    ensures { Provided (StartLent settings step (length commitment.now))
        (refusal_of result ≡ start_refusal settings (lent_rows settings step commitment.now)) }
{
    tests::allow(settings)?;
    require(lent_below(settings, step, commitment), Refusal::Residue)
}

// 8 of the claims and the three elements of a round polynomial.
fn round_below(
    settings: Settings,
    claims: &[Residue],
    step: usize,
    c0: &[Residue],
    c1: &[Residue],
    c2: &[Residue],
) -> bool
    ensures { Provided (settings_refusal settings ≡ 0)
        (Provided (RoundLent settings (length claims.now) step (length c0.now) (length c1.now) (length c2.now))
        (result ≡ (residue_rows settings claims.now && residue_rows settings (lent_rows settings step c0.now)
        && residue_rows settings (lent_rows settings step c1.now) && residue_rows settings (lent_rows settings step c2.now)))) }
{
    rows_below(settings, claims)
        & lent_below(settings, step, c0)
        & lent_below(settings, step, c1)
        & lent_below(settings, step, c2)
}

#[tactic(auto, unfolding(protocol::specs::Basic::first, protocol::specs::Basic::unless, protocol::specs::Session::session_round_refusal, protocol::specs::Session::part, protocol::specs::Settings::exponents, protocol::specs::Settings::exponent))]
pub fn round(
    progress: Progress,
    claims: &[Residue],
    step: usize,
    c0: &[Residue],
    c1: &[Residue],
    c2: &[Residue],
    e: u32,
) -> Result<(), Refusal>
    ensures { Provided (RoundLent progress.settings (length claims.now) step (length c0.now) (length c1.now) (length c2.now))
        (refusal_of result ≡ session_round_refusal (record_of progress claims.now)
        (lent_polynomial progress.settings step c0.now c1.now c2.now) e) }
{
    let settings = progress.settings;
    let challenges = progress.challenges;
    tests::allow(settings)?;
    let below = round_below(settings, claims, step, c0, c1, c2);
    require(below, Refusal::Residue)?;
    let limit = sizes::exponent_count(settings);
    let exponents = tests::all_below(limit, &challenges) & (e < limit);
    require(exponents, Refusal::Challenge)?;
    let turn = (progress.done < settings.depth) & !progress.closed;
    require(turn, Refusal::Turn)
}

#[tactic(auto, unfolding(protocol::specs::Basic::first, protocol::specs::Basic::unless, protocol::specs::Session::session_end_refusal, protocol::specs::Settings::has_length, protocol::specs::Settings::all_below, protocol::specs::Settings::exponents, protocol::specs::Settings::exponent))]
pub fn end(progress: Progress, claims: &[Residue], key: &[Residue]) -> Result<(), Refusal>
    ensures { Provided (length claims.now ≡ rows_width)
        (refusal_of result ≡ session_end_refusal (record_of progress claims.now) key.now) }
{
    tests::allow(progress.settings)?;
    let Progress {
        settings,
        challenges,
        ..
    } = progress;
    require(key.len() == sizes::key_cells(settings), Refusal::Size)?;
    require(
        tests::all_below_wide(settings.modulus, key) & rows_below(settings, claims),
        Refusal::Residue,
    )?;
    let limit = sizes::exponent_count(settings);
    require(tests::all_below(limit, &challenges), Refusal::Challenge)?;
    require(
        (progress.done == settings.depth) & !progress.closed,
        Refusal::Turn,
    )
}
