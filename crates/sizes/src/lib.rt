// The layout in code: how many elements, numbers, challenges and nodes there are, how many of them are left after t rounds, and how large numbers become.
// Each function is safe for every input, and says what it gives for settings that are allowed.
#![tactic(auto)]

ghost use Rattle.std.specs.Prelude.{◌≡◌, ◌*◌, ◌^◌, ◌<◌, ◌≤◌};
ghost use Rattle.protocol.specs.Basic.{Provided};
ghost use Rattle.protocol.specs.Layout as layout;
ghost use Rattle.protocol.specs.Layout.{width, rows_most, rows_width, key_cells, item_cells, left_cells, half_left, round_cells, claim_cells, item_of, polynomial_at, tree_challenges, tree_round_cells, leaf_cells, exponent_count};
ghost use Rattle.protocol.specs.Settings.{settings_refusal};
ghost use Rattle.protocol.specs.Tree.{growth_limit};
ghost use Rattle.protocol.specs.GrowthTest.{capped_times, capped_growth};
ghost use Rattle.sizes.specs.Most.{leaves_most, nodes_most, tree_challenges_most, polynomial_at_most};
ghost use Rattle.sizes.specs.Rounds.{RoundsDone, RoundLeft};

use protocol::{ROWS, Settings, WIDTH};
use ranges::tests::{BOUND_MOST, DEPTH_MOST};

// The most branching nodes of a tree: `nodes_most` of the definitions.
const NODES_MOST: u32 = 3280;

// 2^62: `growth_limit` of the definitions.
pub const GROWTH_LIMIT: u64 = 4611686018427387904;

// Where a growth past the limit is held.
const BEYOND: u64 = GROWTH_LIMIT + 1;

// The elements that are left, n/2^t, and those of a half of them.
#[tactic(auto, using(crate::proofs::Limits::allowed_depth, crate::proofs::Shift::left_is))]
pub fn left(settings: Settings, t: u32) -> u32
    ensures { Provided (RoundsDone settings t) (result ≡ layout.left settings t) }
{
    if settings.depth > DEPTH_MOST {
        return 0;
    }
    if t > settings.depth {
        return 0;
    }
    1u32 << (settings.depth - t)
}

#[tactic(auto, unfolding(protocol::specs::Layout::left, protocol::specs::Layout::half_left))]
pub fn half_left(settings: Settings, t: u32) -> u32
    ensures { Provided (RoundLeft settings t) (result ≡ half_left settings t) }
{
    if t >= settings.depth {
        return 0;
    }
    left(settings, t + 1)
}

// The numbers of a row of a key, or of a message: n elements of d.
#[tactic(auto, unfolding(protocol::specs::Layout::left, protocol::specs::Layout::cells, protocol::specs::Layout::size))]
pub fn cells(settings: Settings) -> usize
    ensures { Provided (settings_refusal settings ≡ 0) (result ≡ layout.cells settings) }
{
    left_cells(settings, 0)
}

// A number to count with: 0 where it is more than can be, which is refused.
fn counted(x: u32, most: usize) -> usize
    ensures { Provided (x ≤ most) (result ≡ x) × (result ≤ most) }
{
    let n = x as usize;
    if n <= most { n } else { 0 }
}

// The rows.
#[tactic(auto, using(crate::proofs::Limits::allowed_rows))]
fn rows(settings: Settings) -> usize
    ensures { Provided (settings_refusal settings ≡ 0) (result ≡ settings.rows) × (result ≤ rows_most) }
{
    counted(settings.rows, ROWS)
}

// The places of an element.
#[tactic(auto, using(crate::proofs::Limits::allowed_degree))]
fn places(settings: Settings) -> usize
    ensures { Provided (settings_refusal settings ≡ 0) (result ≡ settings.degree) × (result ≤ width) }
{
    counted(settings.degree, WIDTH)
}

// The numbers of so many elements in each row.
fn all_rows(settings: Settings, items: u32) -> usize
    ensures { Provided (settings_refusal settings ≡ 0) (result ≡ settings.rows * items * settings.degree) }
{
    rows(settings) * (items as usize) * places(settings)
}

// The numbers of a key: rows·n elements of d.
#[tactic(auto, unfolding(protocol::specs::Layout::left))]
pub fn key_cells(settings: Settings) -> usize
    ensures { Provided (settings_refusal settings ≡ 0) (result ≡ key_cells settings) }
{
    all_rows(settings, left(settings, 0))
}

// The numbers of an element for each row: of a commitment, and of c_j of a round.
pub fn item_cells(settings: Settings) -> usize
    ensures { Provided (settings_refusal settings ≡ 0) (result ≡ item_cells settings) × (result ≤ rows_width) }
{
    rows(settings) * places(settings)
}

// The numbers of the elements that are left.
pub fn left_cells(settings: Settings, t: u32) -> usize
    ensures { Provided (RoundsDone settings t) (result ≡ left_cells settings t) }
{
    (left(settings, t) as usize) * (settings.degree as usize)
}

// The bound of what is left: 2^t·B.
#[tactic(auto, using(crate::proofs::Limits::allowed_bound, crate::proofs::Limits::allowed_depth))]
pub fn left_bound(settings: Settings, t: u32) -> u32
    ensures { Provided (RoundsDone settings t) (result ≡ 2 ^ t * settings.bound) }
{
    if settings.bound > BOUND_MOST {
        return 0;
    }
    if t > DEPTH_MOST {
        return 0;
    }
    (1u32 << t) * settings.bound
}

// The leaves of a full tree, 3^L, and its branching nodes.
#[tactic(auto, using(crate::proofs::Limits::allowed_depth, crate::proofs::Powers::power_most), unfolding(protocol::specs::Layout::leaves))]
pub fn leaves(settings: Settings) -> usize
    ensures { Provided (settings_refusal settings ≡ 0) (result ≡ layout.leaves settings) × (1 ≤ result) × (result ≤ leaves_most) }
{
    let depth = settings.depth;
    if depth > DEPTH_MOST {
        return 1;
    }
    3usize.pow(depth)
}

#[tactic(auto, unfolding(protocol::specs::Layout::leaves, protocol::specs::Layout::nodes))]
pub fn nodes(settings: Settings) -> usize
    ensures { Provided (settings_refusal settings ≡ 0) (result ≡ layout.nodes settings) × (result ≤ nodes_most) }
{
    (leaves(settings) - 1) / 2
}

// The exponents that a challenge may be: 2·d.
#[tactic(auto, using(crate::proofs::Limits::allowed_degree))]
pub fn exponent_count(settings: Settings) -> u32
    ensures { Provided (settings_refusal settings ≡ 0) (result ≡ exponent_count settings) }
{
    if (settings.degree as usize) > WIDTH {
        return 0;
    }
    2 * settings.degree
}

// The numbers of a transcript's round polynomials: rows·3·L elements of d.
#[tactic(auto, using(crate::proofs::Limits::allowed_depth))]
pub fn round_cells(settings: Settings) -> usize
    ensures { Provided (settings_refusal settings ≡ 0) (result ≡ round_cells settings) }
{
    if settings.depth > DEPTH_MOST {
        return 0;
    }
    all_rows(settings, 3 * settings.depth)
}

// The numbers of a transcript's claims: rows·L elements of d.
pub fn claim_cells(settings: Settings) -> usize
    ensures { Provided (settings_refusal settings ≡ 0) (result ≡ claim_cells settings) }
{
    all_rows(settings, settings.depth)
}

// The item of c_j of round k + 1 or of node k, and of challenge j of node k. No tree has more than `nodes_most` branching nodes.
pub fn item_of(k: u32, j: u32) -> u32
    ensures { Provided (k ≤ nodes_most) (Provided (j < 3) (result ≡ item_of k j)) }
{
    if k > NODES_MOST {
        return 0;
    }
    if j > 2 {
        return 0;
    }
    3 * k + j
}

// Where the polynomial of round k + 1, or of node k, begins.
pub fn polynomial_at(settings: Settings, k: u32) -> usize
    ensures { Provided (settings_refusal settings ≡ 0) (Provided (k ≤ nodes_most) (result ≡ polynomial_at settings k)) × (result ≤ polynomial_at_most) }
{
    if k > NODES_MOST {
        return 0;
    }
    let n = item_cells(settings);
    3 * (k as usize) * n
}

// The challenges of a tree, three to a branching node, and the numbers of its round polynomials and of its leaves.
pub fn tree_challenges(settings: Settings) -> usize
    ensures { Provided (settings_refusal settings ≡ 0) (result ≡ tree_challenges settings) × (result ≤ tree_challenges_most) }
{
    3 * nodes(settings)
}

pub fn tree_round_cells(settings: Settings) -> usize
    ensures { Provided (settings_refusal settings ≡ 0) (result ≡ tree_round_cells settings) }
{
    all_rows(settings, tree_challenges(settings) as u32)
}

pub fn leaf_cells(settings: Settings) -> usize
    ensures { Provided (settings_refusal settings ≡ 0) (result ≡ leaf_cells settings) }
{
    leaves(settings) * (settings.degree as usize)
}

// One factor more, held at one past 2^62.
#[tactic(auto, using(crate::proofs::Powers::capped))]
fn capped_times(factor: u64, g: u64) -> u64
    requires { 0 < factor }
    ensures { result ≡ capped_times growth_limit factor g }
{
    g.saturating_mul(factor).min(BEYOND)
}

// (8·d²)^L·B, held at one past 2^62 as soon as it is past it.
#[tactic(auto, using(crate::proofs::Limits::allowed_degree, protocol::proofs::GrowthTest::square), unfolding(protocol::specs::GrowthTest::capped_power, protocol::specs::GrowthTest::capped_growth, protocol::specs::Tree::growth_factor))]
pub fn growth(settings: Settings) -> u64
    ensures { Provided (settings_refusal settings ≡ 0) (result ≡ capped_growth settings) }
{
    let d = places(settings) as u64;
    if d == 0 {
        return 0;
    }
    let factor = 8 * d * d;
    let mut g = u64::from(settings.bound);
    for i in 0..settings.depth {
        g = capped_times(factor, g);
    }
    g
}
