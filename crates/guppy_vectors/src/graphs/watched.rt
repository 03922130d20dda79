//! An edge source that logs its reads.
use crate::shared::Out;
use feature_core::engine::{EdgeSource, Taken};

/// A source with the edges of `source`, which writes the node of each read to `out`.
#[derive(Drop)]
pub struct Watched<S: Drop> {
    pub source: S,
    pub out: Out,
}

impl<S: EdgeSource + Drop> EdgeSource for Watched<S> {
    ghost content = { λ s. S.content s.source };

    ghost reads = { λ s. S.reads s.source };

    fn edge_count(&self) -> usize {
        self.source.edge_count()
    }

    fn take(&mut self, start: usize, place: usize) -> Option<Taken> {
        self.out.number("read ", start);
        self.out.line("");
        self.source.take(start, place)
    }

    fn release(&mut self, gate: usize, place: usize) -> Option<Taken> {
        self.out.number("read ", gate);
        self.out.line("");
        self.source.release(gate, place)
    }
}
