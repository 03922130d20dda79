//! Sets of the nodes in a list.
ghost use Rattle.std.specs.Prelude.{◌≡◌, ◌==◌, ◌||◌, ◌<◌, ℕ, IfOk, IsTrue, length};
ghost use Rattle.digraphs.specs.Bits.{has};
ghost use Rattle.feature_graph_c.specs.requests.Contents.{IsSetOf};
ghost use Rattle.feature_graph_c.specs.requests.Requests.{are_below};

use digraphs::IxBitSet;
use std::alloc::{AllocError, Global};

/// Inserts `node` into `set`.
fn insert(set: &mut IxBitSet, node: usize)
    requires { node < length set.old }
    ensures size { length set.new ≡ length set.old }
    ensures members { (n : ℕ) → has set.new n ≡ (has set.old n || (node == n)) }
{
    set.insert(node);
}

/// Returns the set of the nodes in `nodes`, for a graph with `count` nodes.
pub(crate) fn set_of(alloc: Global, count: usize, nodes: &[usize]) -> Result<IxBitSet, AllocError>
    requires { IsTrue (are_below count nodes.now) }
    ensures { IfOk result (IsSetOf count nodes.now) }
{
    let mut set = IxBitSet::empty(alloc, count)?;
    for at in 0..nodes.len() {
        insert(&mut set, nodes[at]);
    }
    Ok(set)
}
