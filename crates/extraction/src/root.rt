// The vector of a tree's root.
ghost use Rattle.std.specs.Prelude.{◌≡◌, ◌*◌, ◌≤◌, ◌++◌, length, take, drop};
ghost use Rattle.protocol.specs.Settings.{cells};
ghost use Rattle.protocol.specs.Tree.{root_vector};
ghost use Rattle.extraction.specs.Nodes.{vector_room, Extractable};

use crate::vectors::node;
use protocol::{Settings, WIDTH};

// The most numbers of a vector where the growth is within its limit (8 elements at d = 128), and room for two vectors: a node's own and its children's work.
const VECTOR: usize = 1024;

const WORKSPACE: usize = 2 * VECTOR;

const ROOM: usize = 2 * WIDTH;

fn workspace() -> [i64; WORKSPACE]
    ensures { length result ≡ 2 * vector_room }
{
    [0i64; WORKSPACE]
}

// Copies the first n numbers of a vector.
fn store(n: usize, vector: &[i64], w: &mut [i64])
    requires { (n ≤ length vector.now) × (n ≤ length w.old) }
    ensures { w.new ≡ take n vector.now ++ drop n w.old }
{
    w[..n].copy_from_slice(&vector[..n]);
}

// The nodes' vectors are worked out in a local list, with room for two copies of one element beside it.
pub(crate) fn root(settings: Settings, challenges: &[u32], leaves: &[i32], w: &mut [i64])
    requires extractable { Extractable settings challenges.now leaves.now }
    requires w_len { length w.old ≡ cells settings }
    ensures { w.new ≡ root_vector settings challenges.now leaves.now }
{
    let cells = sizes::cells(settings);
    let first = sizes::nodes(settings);
    let end = 2 * cells;
    let mut ws = workspace();
    let mut room = [0i64; ROOM];
    node(
        settings,
        settings.depth,
        0,
        first,
        challenges,
        leaves,
        &mut ws[..end],
        &mut room,
    );
    store(cells, &ws[cells..end], w);
}
