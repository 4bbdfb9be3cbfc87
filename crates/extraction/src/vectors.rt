// The vectors of a tree's nodes, over whole numbers: flat lists of elements, d numbers each.
ghost use Rattle.std.specs.Prelude.{◌≡◌, ◌+◌, ◌*◌, ◌-◌, ◌^◌, ◌<◌, ◌≤◌, length, get_or, take, drop};
ghost use Rattle.protocol.specs.Element.{signed, signed_at, coefficients};
ghost use Rattle.protocol.specs.Layout.{width, item_of};
ghost use Rattle.protocol.specs.Tree.{child, challenge, mu, vector};
ghost use Rattle.residues.specs.Lists.{filled};
ghost use Rattle.extraction.specs.Vectors.{scaled, Scalable, turned, Turnable, with_share, Sharing, other, another, Branching, branch_added};
ghost use Rattle.protocol.specs.Nodes.{AtNode};
ghost use Rattle.extraction.specs.Nodes.{Extractable};

use crate::elements::{add_rotated, mirror, weigh};
use protocol::Settings;
use residues::on_circle;

// Multiplies each of the first n elements of v by X^(2a)·μ, from the exponents that μ's quotients and sum go by; x is room for two copies of one.
fn scale(d: usize, n: usize, k: usize, m: usize, e: usize, v: &mut [i64], x: &mut [i64])
    requires { (2 * d ≤ length x.old) × Scalable d n k m e v.old }
    ensures { v.new ≡ scaled d n k m e v.old }
{
    for i in 0..n {
        let at = i * d;
        weigh(d, k, m, e, &mut v[at..], x);
    }
}

// Adds X^e times each of the first n elements to the n behind them, and X^f times each to the n behind those. x is room for two copies of one.
fn add_turned(d: usize, n: usize, e: usize, f: usize, l: &mut [i64], x: &mut [i64])
    requires { (2 * d ≤ length x.old) × Turnable d n e f l.old }
    ensures { l.new ≡ turned d n e f n l.old }
{
    let cells = n * d;
    for i in 0..n {
        let at = i * d;
        mirror(d, &l[at..], x);
        let low = cells + at;
        add_rotated(d, e, x, &mut l[low..]);
        let high = cells + low;
        add_rotated(d, f, x, &mut l[high..]);
    }
}

// Adds one child's share to a node's vector. The list is the child's vector, n elements, which is used up, and the node's, twice as long.
// X^a is the challenge that leads to the child, X^b and X^c are the other two. The products are ahead of μ's by X^(2a), so the sums turn back.
fn add_share(d: usize, n: usize, a: usize, b: usize, c: usize, l: &mut [i64], x: &mut [i64])
    requires { (2 * d ≤ length x.old) × Sharing d n a b c l.old }
    ensures { drop (n * d) l.new ≡ with_share d n a (mu d a b c) (take (n * d) l.old) (drop (n * d) l.old) }
{
    let back = 2 * d - a;
    let k = on_circle(d, b + back);
    let m = on_circle(d, c + back);
    let e = on_circle(d, b + c);
    let cells = n * d;
    scale(d, n, k, m, e, &mut l[..cells], x);
    let once = on_circle(d, back);
    let twice = on_circle(d, 2 * once);
    add_turned(d, n, twice, once, l, x);
}

// Copies numbers of a final element.
fn load(f: &[i32], out: &mut [i64])
    requires { length out.old ≤ length f.now }
    ensures { out.new ≡ filled (signed f.now) (length out.old) out.old }
{
    for (k, x) in out.iter_mut().enumerate() {
        *x = i64::from(f[k]);
    }
}

// Challenge j of node k, as an exponent.
#[tactic(auto, unfolding(protocol::specs::Tree::challenge))]
fn challenge_of(challenges: &[u32], k: usize, j: usize) -> usize
    requires { item_of k j < length challenges.now }
    ensures { result ≡ challenge challenges.now k j }
{
    challenges[3 * k + j] as usize
}

// The number of child j of node k.
#[tactic(auto, unfolding(protocol::specs::Tree::child))]
fn child_of(k: usize, j: usize) -> usize
    requires { 3 * k + 1 + j < 2 ^ 64 }
    ensures { result ≡ child k j }
{
    3 * k + 1 + j
}

// The other two children beside child j.
fn others(j: usize) -> (usize, usize)
    requires { j < 3 }
    ensures { (result.0 ≡ other j) × (result.1 ≡ another j) }
{
    match j {
        0 => (1, 2),
        1 => (0, 2),
        _ => (0, 1),
    }
}

// The share of child j at node k: the child's vector, n elements, stands in the second quarter of ws, the node's in its second half.
fn add_branch(
    d: usize,
    n: usize,
    k: usize,
    j: usize,
    challenges: &[u32],
    ws: &mut [i64],
    room: &mut [i64],
)
    requires { (2 * d ≤ length room.old) × Branching d n k j (other j) (another j) challenges.now ws.old }
    ensures { drop (2 * (n * d)) ws.new ≡ branch_added d n k j (other j) (another j) challenges.now ws.old }
{
    let (x, y) = others(j);
    let a = challenge_of(challenges, k, j);
    let b = challenge_of(challenges, k, x);
    let c = challenge_of(challenges, k, y);
    let cells = n * d;
    add_share(d, n, a, b, c, &mut ws[cells..], room);
}

// The vector of leaf j, in the second half of ws.
fn leaf_vector(d: usize, j: usize, leaves: &[i32], ws: &mut [i64])
    requires { (d ≤ width) × (j * d + d ≤ length leaves.now) × (length ws.old ≡ 2 * d) }
    ensures { drop d ws.new ≡ coefficients d (signed_at d leaves.now j) }
{
    let at = j * d;
    load(&leaves[at..], &mut ws[d..]);
}

// The vector of node k, h steps above the leaves, in the second half of ws; what the first half then holds is left free.
pub(crate) fn node(
    settings: Settings,
    h: u32,
    k: usize,
    first: usize,
    challenges: &[u32],
    leaves: &[i32],
    ws: &mut [i64],
    room: &mut [i64],
)
    requires extractable { Extractable settings challenges.now leaves.now }
    requires at_node { AtNode settings h k first (length ws.old) × (2 * width ≤ length room.old) }
    ensures { drop (2 ^ h * settings.degree) ws.new ≡ vector settings challenges.now leaves.now h k }
{
    let d = settings.degree as usize;
    if h == 0 {
        leaf_vector(d, k - first, leaves, ws);
        return;
    }
    let half = ws.len() / 2;
    let n = half / 2 / d;
    ws[half..].fill(0);
    for j in 0..3 {
        node(
            settings,
            h - 1,
            child_of(k, j),
            first,
            challenges,
            leaves,
            &mut ws[..half],
            room,
        );
        add_branch(d, n, k, j, challenges, ws, room);
    }
}
