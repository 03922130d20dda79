//! Links the other way round.
ghost use Rattle.std.specs.Prelude.{◌≡◌, AllPairs, IfOk, IsPermutation, map};
ghost use Rattle.feats_tree.specs.trees.Reversals.{IsNoLater, turned};

use std::alloc::{AllocError, Global};

/// Returns `links` the other way round.
fn turned(alloc: Global, links: &[(usize, usize)]) -> Result<Vec<(usize, usize)>, AllocError>
    ensures { IfOk result (λ new. new.items ≡ map turned links.now) }
{
    let mut new = Vec::with_capacity(alloc, links.len())?;
    for link in links {
        new.push((link.1, link.0))?;
    }
    Ok(new)
}

/// Returns each of `links` the other way round, in the order of the new starts, and of the new ends of a start. Trees over them are
/// inverted.
pub fn reversed(alloc: Global, links: &[(usize, usize)]) -> Result<Vec<(usize, usize)>, AllocError>
    ensures same { IfOk result (λ new. IsPermutation (map turned links.now) new.items) }
    ensures sorted { IfOk result (λ new. AllPairs IsNoLater new.items) }
{
    let mut new = turned(alloc, links)?;
    new.sort()?;
    Ok(new)
}
