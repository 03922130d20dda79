//! Edges stored in two columns of 32-bit numbers.
ghost use Rattle.std.specs.Prelude.{◌≡◌, ◌++◌, ◌∷◌, [], ◌<◌, length, slice_get, Some, IfOk, OnOk, OnErr};

use crate::digraph::Edge;
use std::alloc::{AllocError, Global};
use std::marker::Model;

/// The last source that fits in 32 bits.
const LAST_SOURCE: usize = 4294967295;

/// The last target that fits in 31 bits.
const LAST_TARGET: usize = 2147483647;

/// A list of edges, eight bytes each: a column of sources, and a column of targets combined with `non_dev`.
#[derive(Debug, Drop)]
pub struct EdgeColumns {
    sources: Vec<u32>,
    // twice the target, plus one if `non_dev`
    ends: Vec<u32>,
}

impl Model for EdgeColumns {
    ghost use Rattle.std.specs.Prelude.{◌≡◌, List, length};
    ghost use Rattle.digraphs.specs.declared.digraph.Edge.{Edge};
    ghost use Rattle.digraphs.specs.inner.EdgeColumns.{edges_in};

    ghost Value = { List Edge };

    ghost view = { λ c. edges_in c.sources.items c.ends.items };

    ghost invariant = { λ c. length c.sources.items ≡ length c.ends.items };
}

impl EdgeColumns {
    /// Returns an empty list with room for `room` edges.
    pub fn with_capacity(alloc: Global, room: usize) -> Result<EdgeColumns, AllocError>
        ensures { IfOk result (λ columns. columns ≡ []) }
    {
        let sources = Vec::with_capacity(alloc, room)?;
        let ends = Vec::with_capacity(alloc, room)?;
        Ok(EdgeColumns { sources, ends })
    }

    /// Returns a copy of `edges`. Returns `AllocError` if an allocation fails or a number doesn't fit, as
    /// `push` does.
    pub fn copied(alloc: Global, edges: &[Edge]) -> Result<EdgeColumns, AllocError>
        ensures { IfOk result (λ columns. columns ≡ edges.now) }
    {
        let mut columns = EdgeColumns::with_capacity(alloc, edges.len())?;
        for place in 0..edges.len() {
            columns.push(edges[place])?;
        }
        Ok(columns)
    }

    /// Appends an edge. Returns `AllocError`, and leaves the list unchanged, if an allocation fails, if the
    /// source is over 4294967295, or if the target is over 2147483647
    /// ([limits](../../../../docs/DIFFERENCES.md#limits)).
    pub fn push(&mut self, edge: Edge) -> Result<(), AllocError>
        ensures pushed { OnOk result (self.new ≡ self.old ++ edge ∷ []) }
        ensures untouched { OnErr result (self.new ≡ self.old) }
    {
        if edge.from > LAST_SOURCE || edge.to > LAST_TARGET {
            return Err(AllocError);
        }
        self.sources.push(edge.from as u32)?;
        let end = 2 * edge.to + usize::from(edge.non_dev);
        if self.ends.push(end as u32).is_err() {
            self.sources.pop();
            return Err(AllocError);
        }
        Ok(())
    }

    /// Returns the number of edges.
    pub fn len(&self) -> usize
        ensures { result ≡ length self.now }
    {
        self.sources.len()
    }

    /// Returns the edge with this number.
    pub fn edge(&self, number: usize) -> Edge
        requires { number < length self.now }
        ensures { slice_get self.now number ≡ Some result }
    {
        let end = self.ends[number] as usize;
        Edge {
            from: self.sources[number] as usize,
            to: end / 2,
            non_dev: end % 2 == 1,
        }
    }
}
