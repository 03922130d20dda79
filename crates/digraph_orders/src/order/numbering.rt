//! Numbers of components along the list of an order, and places of nodes.
ghost use Rattle.std.specs.Prelude.{◌≡◌, ◌≢◌, ℕ, ◌∷◌, [], ◌++◌, ◌+◌, ◌^◌, ◌<◌, ◌≤◌, length, slice_index, IfOk, OnOk};
ghost use Rattle.digraph_orders.specs.inner.Apart.{AreApart};
ghost use Rattle.digraph_orders.specs.inner.Numbering.{ArePlaces, AreAllNumbered};

use digraphs::zeroes;
use std::alloc::{AllocError, Global};

/// Appends `place` to `begins` if the node there is in another component than the node before it: `rank` and `last`
/// are their ranks.
fn begin_at(begins: &mut Vec<u32>, last: u32, rank: u32, place: usize) -> Result<(), AllocError>
    requires narrow { place < 2 ^ 32 }
    ensures few { OnOk result (length begins.new.items ≤ length begins.old.items + 1) }
    ensures first { OnOk result (place ≡ 0 → begins.new.items ≡ begins.old.items ++ place ∷ []) }
    ensures stays { OnOk result (0 < place → last ≡ rank → begins.new.items ≡ begins.old.items) }
    ensures steps { OnOk result (last ≢ rank → begins.new.items ≡ begins.old.items ++ place ∷ []) }
{
    if place > 0 && last == rank {
        return Ok(());
    }
    begins.push(place as u32)?;
    Ok(())
}

/// Returns the component number of each node, the place at which each component begins, followed by the length of the
/// list, and the place of each node. The component numbers replace the ranks.
pub(crate) fn numbered(
    alloc: Global,
    list: &[usize],
    ranks: Vec<u32>,
    count: usize,
) -> Result<(Vec<u32>, Vec<u32>, Vec<u32>), AllocError>
    requires narrow { length list.now < 2 ^ 32 }
    requires room { length ranks.items ≡ length list.now }
    requires nodes { (i : ℕ) → i < length list.now → slice_index list.now i < length list.now }
    requires apart { AreApart list.now }
    ensures long { IfOk result (λ r. length r.0.items ≡ length list.now) }
    ensures some { IfOk result (λ r. 0 < length r.1.items) }
    ensures numbers { IfOk result (λ r. AreAllNumbered list.now ranks.items r.0.items r.1.items) }
    ensures places { IfOk result (λ r. ArePlaces list.now r.2.items) }
{
    let mut begins = Vec::with_capacity(alloc, count.saturating_add(1))?;
    let mut places = zeroes(alloc, list.len())?;
    let mut components = ranks;
    let mut last = 0;
    for place in 0..list.len() {
        let node = list[place];
        let rank = components[node];
        begin_at(&mut begins, last, rank, place)?;
        components[node] = (begins.len() - 1) as u32;
        places[node] = place as u32;
        last = rank;
    }
    begins.push(list.len() as u32)?;
    Ok((components, begins, places))
}
