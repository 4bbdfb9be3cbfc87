// The check of one row of a tree node by node: the rounds are lent from the row's first element on, and the key is the row's.
// Each node hands its next claim and its folded key to its children, so that no fold is done twice.
// All below a child of the root share one workspace: a node's key stands in the second half of its part, and its children work in the first half.
ghost use Rattle.std.specs.Prelude.{◌≡◌, ◌+◌, ◌*◌, ◌-◌, ◌^◌, ◌<◌, ◌≤◌, length, drop};
ghost use Rattle.protocol.specs.Basic.{every, Provided};
ghost use Rattle.protocol.specs.Settings.{settings_refusal, cells};
ghost use Rattle.protocol.specs.Tree as tree;
ghost use Rattle.folds.specs.Folds.{fold_down};
ghost use Rattle.protocol.specs.TreeCheck.{claim_to, node_holds, tree_accepted};
ghost use Rattle.protocol.specs.Nodes.{AtNode, Alike};
ghost use Rattle.tree_check.specs.Nodes.{Folding, RootFolding, RootFolded, Tables, Round, Reduced, Read, tree_row, leaf_met, child_accepted};

use protocol::{Residue, Settings, WIDTH};

// Challenge j of node k.
#[tactic(auto, unfolding(protocol::specs::Tree::challenge))]
fn challenge(challenges: &[u32], k: u32, j: u32) -> u32
    requires { (k ≤ 3280) × (j < 3) }
    ensures { result ≡ tree.challenge challenges.now k j }
{
    challenges.get((3 * k + j) as usize).copied().unwrap_or(0)
}

// Does the round of node k hold.
fn node_holds(settings: Settings, k: u32, claim: &[Residue], rounds: &[Residue]) -> bool
    requires { Round settings k (length rounds.now) × (settings.degree ≤ length claim.now) }
    ensures { result ≡ node_holds settings (tree_row settings rounds.now) k claim.now }
{
    equations::rounds::polynomial_holds(settings, k, claim, rounds)
}

// The claim that node k hands to its child j, written to the front of `claim`. What else `claim` holds is left free.
fn claim_to(
    settings: Settings,
    k: u32,
    j: u32,
    rounds: &[Residue],
    challenges: &[u32],
    claim: &mut [Residue],
)
    requires { Round settings k (length rounds.now) × (j < 3) × (settings.degree ≤ length claim.old) }
    ensures { Provided (Reduced settings rounds.now)
        (Alike settings.degree claim.new (claim_to settings (tree_row settings rounds.now) challenges.now k j)) }
{
    let e = challenge(challenges, k, j);
    equations::rounds::next_claim(settings, k, e, rounds, claim);
}

// Is the end met at leaf j, with the key folded down to it.
fn leaf_accepted(
    settings: Settings,
    j: u32,
    claim: &[Residue],
    leaves: &[i32],
    folded: &[Residue],
) -> bool
    requires { (settings_refusal settings ≡ 0) × (j * settings.degree + settings.degree ≤ length leaves.now) × (settings.degree ≤ length claim.now)
        × (settings.degree ≤ length folded.now) }
    ensures { Provided (Reduced settings folded.now) (result ≡ leaf_met settings leaves.now j claim.now folded.now) }
{
    let at = (j as usize) * (settings.degree as usize);
    equations::end_holds(settings, claim, &leaves[at..], folded)
}

// Folds the key of a node that is h steps above the leaves by X^e, to where its child's key stands.
fn fold_key(settings: Settings, h: u32, e: u32, ws: &mut [Residue])
    requires { Folding settings h (length ws.old) }
    ensures { Provided (Reduced settings (drop (2 ^ h * settings.degree) ws.old))
        (ws.new ≡ fold_down settings.modulus settings.degree (2 ^ (h - 1)) e (2 ^ h * settings.degree) (2 ^ (h - 1) * settings.degree) ws.old) }
{
    let d = settings.degree;
    let n = sizes::half_left(settings, settings.depth - h);
    let to = n * d;
    folds::fold_down(settings.modulus, d, n, e, 2 * to, to, ws);
}

// Is every path accepted that goes from node k, h steps above the leaves, to its child j. The node's key stays.
#[cycle(child_accepted_subtree_accepted)]
fn child_accepted(
    settings: Settings,
    h: u32,
    k: u32,
    j: u32,
    first: u32,
    rounds: &[Residue],
    challenges: &[u32],
    leaves: &[i32],
    ws: &mut [Residue],
) -> bool
    requires tables { Tables settings (length rounds.now) (length leaves.now) × (0 < h) × (j < 3) }
    requires at_node { AtNode settings h k first (length ws.old) }
    ensures { Provided (Read settings h rounds.now ws.old)
        ((result ≡ child_accepted settings (tree_row settings rounds.now) challenges.now leaves.now h k (drop (2 ^ h * settings.degree) ws.old) j)
        × (drop (2 ^ h * settings.degree) ws.new ≡ drop (2 ^ h * settings.degree) ws.old)) }
{
    let mut claim = [0u64; WIDTH];
    claim_to(settings, k, j, rounds, challenges, &mut claim);
    fold_key(settings, h, challenge(challenges, k, j), ws);
    let half = ws.len() / 2;
    subtree_accepted(
        settings,
        h - 1,
        3 * k + 1 + j,
        first,
        &claim,
        rounds,
        challenges,
        leaves,
        &mut ws[..half],
    )
}

// Is every path accepted from node k on, which is h steps above the leaves, with its claim. Its key is the second half of ws; what ws then holds is left free.
#[cycle(child_accepted_subtree_accepted)]
fn subtree_accepted(
    settings: Settings,
    h: u32,
    k: u32,
    first: u32,
    claim: &[Residue],
    rounds: &[Residue],
    challenges: &[u32],
    leaves: &[i32],
    ws: &mut [Residue],
) -> bool
    requires tables { Tables settings (length rounds.now) (length leaves.now) × (settings.degree ≤ length claim.now) }
    requires at_node { AtNode settings h k first (length ws.old) }
    ensures { Provided (Read settings h rounds.now ws.old)
        (result ≡ tree_accepted settings (tree_row settings rounds.now) challenges.now leaves.now h k (settings.depth - h) claim.now
        (drop (2 ^ h * settings.degree) ws.old)) }
{
    if h == 0 {
        let d = settings.degree as usize;
        return leaf_accepted(settings, k - first, claim, leaves, &ws[d..]);
    }
    if !node_holds(settings, k, claim, rounds) {
        return false;
    }
    if !child_accepted(settings, h, k, 0, first, rounds, challenges, leaves, ws) {
        return false;
    }
    if !child_accepted(settings, h, k, 1, first, rounds, challenges, leaves, ws) {
        return false;
    }
    child_accepted(settings, h, k, 2, first, rounds, challenges, leaves, ws)
}

// Room for the largest key, 2^8 elements, and before it for half as many; and for one of 1,024 numbers, as every tree has that can be extracted from.
const ROOM: usize = 3 * 128 * WIDTH;

const FEW: usize = 1024;

const SMALL_ROOM: usize = FEW + FEW / 2;

fn room<const N: usize>() -> [Residue; N]
    ensures { length result ≡ N }
{
    [0; N]
}

// Copies the root's key to a workspace, behind its first third, and folds it by X^e to where it begins: to where the root's child looks for its key.
fn fold_root(settings: Settings, e: u32, key: &[Residue], ws: &mut [Residue])
    requires { RootFolding settings (length key.now) (length ws.old) }
    ensures { Provided (Reduced settings key.now) (RootFolded settings e key.now ws.new) }
{
    let n = sizes::half_left(settings, 0);
    let to = n * settings.degree;
    residues::store(key.len(), key, to as usize, ws);
    folds::fold_down(settings.modulus, settings.degree, n, e, to, to, ws);
}

// Is every path accepted that goes from the root to its child j. The key stays, so that no workspace has to hold it whole beside all that it is folded to.
fn root_child_accepted(
    settings: Settings,
    j: u32,
    key: &[Residue],
    rounds: &[Residue],
    challenges: &[u32],
    leaves: &[i32],
    ws: &mut [Residue],
) -> bool
    requires { Tables settings (length rounds.now) (length leaves.now) × RootFolding settings (length key.now) (length ws.old) × (j < 3) }
    ensures { Provided (Reduced settings rounds.now × Reduced settings key.now)
        (result ≡ child_accepted settings (tree_row settings rounds.now) challenges.now leaves.now settings.depth 0 key.now j) }
{
    let mut claim = [0u64; WIDTH];
    claim_to(settings, 0, j, rounds, challenges, &mut claim);
    fold_root(settings, challenge(challenges, 0, j), key, ws);
    let first = sizes::nodes(settings) as u32;
    let n = key.len();
    subtree_accepted(
        settings,
        settings.depth - 1,
        1 + j,
        first,
        &claim,
        rounds,
        challenges,
        leaves,
        &mut ws[..n],
    )
}

// Is every path accepted below the root.
fn root_children_accepted(
    settings: Settings,
    key: &[Residue],
    rounds: &[Residue],
    challenges: &[u32],
    leaves: &[i32],
    ws: &mut [Residue],
) -> bool
    requires { Tables settings (length rounds.now) (length leaves.now) × RootFolding settings (length key.now) (length ws.old) }
    ensures { Provided (Reduced settings rounds.now × Reduced settings key.now)
        (result ≡ every 3 (child_accepted settings (tree_row settings rounds.now) challenges.now leaves.now settings.depth 0 key.now)) }
{
    for j in 0..3u32 {
        if !root_child_accepted(settings, j, key, rounds, challenges, leaves, ws) {
            return false;
        }
    }
    true
}

// The root: its claim is the commitment and its key the unfolded one.
pub(crate) fn root_accepted(
    settings: Settings,
    commitment: &[Residue],
    key: &[Residue],
    rounds: &[Residue],
    challenges: &[u32],
    leaves: &[i32],
) -> bool
    requires { Tables settings (length rounds.now) (length leaves.now) × (length key.now ≡ cells settings) × (settings.degree ≤ length commitment.now) }
    ensures { Provided (Reduced settings rounds.now × Reduced settings key.now)
        (result ≡ tree_accepted settings (tree_row settings rounds.now) challenges.now leaves.now settings.depth 0 0 commitment.now key.now) }
{
    if settings.depth == 0 {
        return leaf_accepted(settings, 0, commitment, leaves, key);
    }
    if !node_holds(settings, 0, commitment, rounds) {
        return false;
    }
    if key.len() <= FEW {
        let mut few = room::<SMALL_ROOM>();
        return root_children_accepted(settings, key, rounds, challenges, leaves, &mut few);
    }
    let mut ws = room::<ROOM>();
    root_children_accepted(settings, key, rounds, challenges, leaves, &mut ws)
}
