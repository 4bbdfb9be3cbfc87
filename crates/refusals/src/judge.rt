// The refusals of the judge.
ghost use Rattle.std.specs.Prelude.{◌≡◌};
ghost use Rattle.protocol.specs.Basic.{Provided};
ghost use Rattle.protocol.specs.Refusal.{refusal_of};
ghost use Rattle.protocol.specs.Settings.{settings_refusal};
ghost use Rattle.protocol.specs.Tree.{growth_allowed};
ghost use Rattle.protocol.specs.Judge as of;
ghost use Rattle.protocol.specs.Calls.{judge_refusal};

use protocol::{Item, Refusal, Residue, Settings};
use ranges::tests;
use ranges::tests::require;
use verifier_refusals::rows_below;

// The largest slack, 4^8: as `slack_allowed` has it.
const SLACK_MOST: u32 = 65536;

// 14, here and in the extractor: is the growth at most 2^62.
pub fn growth_allowed(settings: Settings) -> bool
    ensures { Provided (settings_refusal settings ≡ 0) (result ≡ growth_allowed settings) }
{
    sizes::growth(settings) <= sizes::GROWTH_LIMIT
}

// 15: is the slack in its range, and has no factor in common with q.
#[tactic(auto, unfolding(protocol::specs::Judge::slack_allowed))]
fn slack_allowed(settings: Settings, c: u32) -> bool
    ensures { result ≡ of.slack_allowed settings c }
{
    (1 <= c)
        & (c <= SLACK_MOST)
        & (divisors::greatest_common_divisor(u64::from(c), settings.modulus) == 1)
}

#[tactic(auto, unfolding(protocol::specs::Basic::first, protocol::specs::Basic::unless, protocol::specs::Calls::judge_refusal, protocol::specs::Settings::all_below, protocol::specs::Settings::has_length))]
pub fn judge(
    settings: Settings,
    commitment: Item,
    c: u32,
    key: &[Residue],
    w: &[i64],
) -> Result<(), Refusal>
    ensures { refusal_of result ≡ judge_refusal settings commitment c key.now w.now }
{
    tests::allow(settings)?;
    require(
        (key.len() == sizes::key_cells(settings)) & (w.len() == sizes::cells(settings)),
        Refusal::Size,
    )?;
    require(
        tests::all_below_wide(settings.modulus, key) & rows_below(settings, &commitment),
        Refusal::Residue,
    )?;
    require(growth_allowed(settings), Refusal::Growth)?;
    require(slack_allowed(settings, c), Refusal::Slack)
}
