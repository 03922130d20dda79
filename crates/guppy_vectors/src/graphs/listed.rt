//! An edge source that scans a list.
ghost use Rattle.std.specs.Prelude.{◌≡◌, ◌&&◌, ◌==◌, ◌<◌, IsTrue, IfOk, IfSome, length, map};
ghost use Rattle.walk_engine.specs.Walks.{is_gated};
ghost use Rattle.guppy_vectors.specs.ListedWays.{way_of, AreWithin};

use feature_core::engine::{Ask, EdgeSource, Taken};
use feature_core::{FeatureEdge, FeatureGraphData};
use guppy_packages::DependencyDirection;
use std::alloc::{AllocError, Global};

/// A way: its start, far end, `Ask` and gate. The gate matters only if the ask is gated, and is 0 otherwise.
type ListedWay = (usize, usize, Ask, usize);

/// An edge source that scans its list of ways for each read.
#[derive(Drop)]
pub struct Listed {
    nodes: usize,
    ways: Vec<ListedWay>,
    reads: u128,
    ghost within: { AreWithin nodes ways.items },
}

/// Returns whether the ask of `way` is gated and its gate is `gate`.
fn is_gated_by(way: ListedWay, gate: usize) -> bool
    ensures { result ≡ (is_gated (way_of way).ask && ((way_of way).gate == gate)) }
{
    match way.2 {
        Ask::Weak { required: _, gated } => gated && way.3 == gate,
        Ask::Nobody => false,
        Ask::Full => false,
    }
}

/// Returns true only if each start, far end and gate of `ways` is below `nodes`.
fn are_within(nodes: usize, ways: &[ListedWay]) -> bool
    ensures { IsTrue result → AreWithin nodes ways.now }
{
    ways.iter()
        .all(|way| way.0 < nodes && way.1 < nodes && way.3 < nodes)
}

/// Returns the ask of `edge` and its gate, or 0 without one. In reverse, no half waits for a gate.
fn ask_of(built: &FeatureGraphData, edge: &FeatureEdge, forward: bool) -> (Ask, usize) {
    match edge {
        FeatureEdge::FeatureToBase | FeatureEdge::NamedFeature => (Ask::Nobody, 0),
        FeatureEdge::NamedFeatureWithWeakSlash(weak) => {
            let required = weak.required().get().is_some();
            let ask = Ask::Weak {
                required,
                gated: forward,
            };
            match built.weak_links().get_index(weak.index().index()) {
                Some((_, gate)) if forward => (ask, *gate),
                _ => (ask, 0),
            }
        }
        _ => (Ask::Full, 0),
    }
}

/// Returns the ways of the edges of `built` in `direction`, by edge number; `AllocError` if an allocation fails.
fn ways_of(
    alloc: Global,
    built: &FeatureGraphData,
    direction: DependencyDirection,
) -> Result<Vec<ListedWay>, AllocError> {
    let forward = direction == DependencyDirection::Forward;
    let mut ways = Vec::new(alloc);
    for number in 0..built.edge_count() {
        let (from, to, edge) = built.edge(number);
        let (ask, gate) = ask_of(built, edge, forward);
        let (start, far) = if forward { (from, to) } else { (to, from) };
        ways.push((start, far, ask, gate))?;
    }
    Ok(ways)
}

/// Returns a source of the edges of `built` in `direction`, with no reads so far; `None` if an end or a gate is no node.
/// `AllocError` if an allocation fails.
pub fn edges_listed(
    alloc: Global,
    built: &FeatureGraphData,
    direction: DependencyDirection,
) -> Result<Option<Listed>, AllocError>
    ensures nodes { IfOk result (λ found. IfSome found (λ source. source.nodes ≡ length built.now.packages)) }
    ensures reads { IfOk result (λ found. IfSome found (λ source. source.reads ≡ 0)) }
{
    let nodes = built.node_count();
    let ways = ways_of(alloc, built, direction)?;
    if !are_within(nodes, &ways) {
        return Ok(None);
    }
    let reads = 0;
    Ok(Some(Listed { nodes, ways, reads }))
}

impl Listed {
    /// Returns the number of reads so far.
    pub fn reads(&self) -> u128 {
        self.reads
    }
}

impl EdgeSource for Listed {
    ghost content = { λ s. record { nodes = s.nodes; ways = map way_of s.ways.items } };

    ghost reads = { λ s. s.reads };

    fn edge_count(&self) -> usize {
        self.ways.len()
    }

    fn take(&mut self, start: usize, place: usize) -> Option<Taken> {
        self.reads += 1;
        let mut left = place;
        for (edge, way) in self.ways.iter().enumerate() {
            if way.0 == start {
                if left == 0 {
                    return Some(Taken {
                        edge,
                        far: way.1,
                        ask: way.2,
                    });
                }
                left -= 1;
            }
        }
        None
    }

    fn release(&mut self, gate: usize, place: usize) -> Option<Taken> {
        self.reads += 1;
        let mut left = place;
        for (edge, way) in self.ways.iter().enumerate() {
            if is_gated_by(*way, gate) {
                if left == 0 {
                    return Some(Taken {
                        edge,
                        far: way.1,
                        ask: way.2,
                    });
                }
                left -= 1;
            }
        }
        None
    }
}
