// The extractor's refusals before the verifier runs: 3 to 8, 16, 10 and 12. 13 and 14 follow in the extractor.
ghost use Rattle.std.specs.Prelude.{◌≡◌, ◌+◌, ◌*◌, ◌≤◌, length};
ghost use Rattle.protocol.specs.Basic.{every};
ghost use Rattle.protocol.specs.Refusal.{refusal_of};
ghost use Rattle.protocol.specs.Tree.{apart};
ghost use Rattle.protocol.specs.Calls.{tree_refusal};

use protocol::{Item, Refusal, Residue, Settings};
use ranges::tests;
use ranges::tests::require;
use verifier_refusals::rows_below;

// 12 at node k: are its three exponents different, as numbers.
#[tactic(auto, unfolding(protocol::specs::Tree::apart, protocol::specs::Tree::challenge))]
fn differ(k: usize, challenges: &[u32]) -> bool
    requires { 3 * k + 3 ≤ length challenges.now }
    ensures { result ≡ apart challenges.now k }
{
    let i = 3 * k;
    let a = challenges[i];
    let b = challenges[i + 1];
    let c = challenges[i + 2];
    (a != b) & (a != c) & (b != c)
}

fn all_differ(nodes: usize, challenges: &[u32]) -> bool
    requires { length challenges.now ≡ 3 * nodes }
    ensures { result ≡ every nodes (apart challenges.now) }
{
    (0..nodes).all(|k| differ(k, challenges))
}

#[tactic(auto, unfolding(protocol::specs::Basic::first, protocol::specs::Basic::unless, protocol::specs::Calls::tree_refusal, protocol::specs::Settings::all_below, protocol::specs::Settings::has_length, protocol::specs::Settings::exponent, protocol::specs::Settings::exponents, protocol::specs::Layout::tree_challenges))]
pub fn extract(
    settings: Settings,
    commitment: Item,
    key: &[Residue],
    rounds: &[Residue],
    challenges: &[u32],
    leaves: &[i32],
    w: &[i64],
) -> Result<(), Refusal>
    ensures { refusal_of result ≡ tree_refusal settings commitment key.now rounds.now challenges.now leaves.now w.now }
{
    tests::allow(settings)?;
    require(
        (key.len() == sizes::key_cells(settings))
            & (rounds.len() == sizes::tree_round_cells(settings))
            & (challenges.len() == sizes::tree_challenges(settings))
            & (leaves.len() == sizes::leaf_cells(settings))
            & (w.len() == sizes::cells(settings)),
        Refusal::Size,
    )?;
    let q = settings.modulus;
    require(
        tests::all_below_wide(q, key)
            & rows_below(settings, &commitment)
            & tests::all_below_wide(q, rounds),
        Refusal::Residue,
    )?;
    let limit = sizes::exponent_count(settings);
    require(tests::all_below(limit, challenges), Refusal::Challenge)?;
    require(
        all_differ(sizes::nodes(settings), challenges),
        Refusal::Twin,
    )
}
