//! The steps of a search along edges.
ghost use Rattle.std.specs.Prelude.{◌≡◌, ◌<◌, ◌++◌, ◌∷◌, ℕ, Bool, [], cond, true, length, slice_set, OnOk};
ghost use Rattle.digraphs.specs.Bits.{has};
ghost use Rattle.guppy_support.specs.Reaches.{FollowedStep};
ghost use Rattle.guppy_support.specs.inner.Search.{EndsAt, Finds};
ghost use Rattle.guppy_support.specs.declared.reading.Reading.TheVariants.{Forward, Backward};

use crate::links_in_order::ends_of;
use crate::reading::Reading;
use digraphs::{Digraph, IxBitSet};
use std::alloc::AllocError;

/// Decides which edges a search follows.
pub trait EdgeFilter {
    /// It can be asked about the edge with this number.
    ghost knows: { Self → ℕ → Type 0 };

    /// The edge with this number is followed.
    ghost is_followed: { Self → ℕ → Bool };

    /// Returns true if the edge with this number is followed.
    fn follows(&self, number: usize) -> bool
        requires { knows self.now number }
        ensures { result ≡ is_followed self.now number };
}

/// Inserts `node` into `found` and appends it to `waiting`, unless it was found before.
#[inline]
pub(crate) fn find(
    found: &mut IxBitSet,
    waiting: &mut Vec<usize>,
    node: usize,
) -> Result<(), AllocError>
    requires { node < length found.old }
    ensures found { found.new ≡ slice_set found.old node true }
    ensures waiting { OnOk result (waiting.new.items ≡ cond (has found.old node) waiting.old.items (waiting.old.items ++ node ∷ [])) }
{
    if !found.contains(node) {
        found.insert(node);
        waiting.push(node)?;
    }
    Ok(())
}

// Finds the end of edge `number`, if `filter` follows the edge.
#[inline]
fn find_end<F: EdgeFilter>(
    digraph: &Digraph,
    filter: &F,
    reading: Reading,
    number: usize,
    found: &mut IxBitSet,
    waiting: &mut Vec<usize>,
) -> Result<(), AllocError>
    requires number { number < length digraph.now.edges }
    requires known { F.knows filter.now number }
    requires size { length found.old ≡ digraph.now.nodes }
    ensures { OnOk result (Finds (EndsAt reading digraph.now.edges (F.is_followed filter.now) number) found.old waiting.old.items found.new waiting.new.items) }
{
    digraph.facts();
    if !filter.follows(number) {
        return Ok(());
    }
    find(found, waiting, ends_of(digraph, reading, number).1)?;
    Ok(())
}

// Finds the targets of the edges from `node` that `filter` follows.
fn follow_out<F: EdgeFilter>(
    digraph: &Digraph,
    filter: &F,
    node: usize,
    found: &mut IxBitSet,
    waiting: &mut Vec<usize>,
) -> Result<(), AllocError>
    requires node { node < digraph.now.nodes }
    requires known { (k : ℕ) → k < length digraph.now.edges → F.knows filter.now k }
    requires size { length found.old ≡ digraph.now.nodes }
    ensures { OnOk result (Finds (FollowedStep Forward digraph.now.edges (F.is_followed filter.now) node) found.old waiting.old.items found.new waiting.new.items) }
{
    let numbers = digraph.out_edges(node);
    for number in numbers.start..numbers.end {
        find_end(digraph, filter, Reading::Forward, number, found, waiting)?;
    }
    Ok(())
}

// Finds the sources of the edges to `node` that `filter` follows.
fn follow_in<F: EdgeFilter>(
    digraph: &Digraph,
    filter: &F,
    node: usize,
    found: &mut IxBitSet,
    waiting: &mut Vec<usize>,
) -> Result<(), AllocError>
    requires node { node < digraph.now.nodes }
    requires known { (k : ℕ) → k < length digraph.now.edges → F.knows filter.now k }
    requires size { length found.old ≡ digraph.now.nodes }
    ensures { OnOk result (Finds (FollowedStep Backward digraph.now.edges (F.is_followed filter.now) node) found.old waiting.old.items found.new waiting.new.items) }
{
    let mut place = 0;
    while let Some(number) = digraph.in_edge(node, place) {
        find_end(digraph, filter, Reading::Backward, number, found, waiting)?;
        place += 1;
    }
    Ok(())
}

/// Finds the ends of the edges that start at `node` and that `filter` follows.
pub(crate) fn follow<F: EdgeFilter>(
    digraph: &Digraph,
    filter: &F,
    reading: Reading,
    node: usize,
    found: &mut IxBitSet,
    waiting: &mut Vec<usize>,
) -> Result<(), AllocError>
    requires node { node < digraph.now.nodes }
    requires known { (k : ℕ) → k < length digraph.now.edges → F.knows filter.now k }
    requires size { length found.old ≡ digraph.now.nodes }
    ensures { OnOk result (Finds (FollowedStep reading digraph.now.edges (F.is_followed filter.now) node) found.old waiting.old.items found.new waiting.new.items) }
{
    match reading {
        Reading::Forward => follow_out(digraph, filter, node, found, waiting),
        Reading::Backward => follow_in(digraph, filter, node, found, waiting),
    }
}
