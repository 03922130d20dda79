//! Refused offers, looked up by edge and half.

ghost use Rattle.std.specs.Prelude.{◌≡◌, ◌<◌, ◌||◌, ◌&&◌, ◌==◌, ℕ, IfOk, length, false};
ghost use Rattle.digraphs.specs.Bits.{has};
ghost use Rattle.walk_engine.specs.declared.walks.Half.{Half};
ghost use Rattle.walk_engine.specs.Walks.{is_half};
ghost use Rattle.walk_checks.specs.Exact.{is_refused};
ghost use Rattle.walk_checks.specs.inner.Tests.{has_mark, AreSized};

use crate::table::holds;
use digraphs::IxBitSet;
use std::alloc::{AllocError, Global};
use walk_engine::Half;

/// Inserts `number` into `set` if it is below the set's bound.
fn put(set: &mut IxBitSet, number: usize)
    ensures size { length set.new ≡ length set.old }
    ensures put { (k : ℕ) → k < length set.old → has set.new k ≡ (has set.old k || (number == k)) }
{
    if number < set.size() {
        set.insert(number);
    }
}

/// For each half, the edges whose half is refused.
#[derive(Drop)]
pub(crate) struct Refusals {
    full: IxBitSet,
    required: IxBitSet,
    optional: IxBitSet,
}

impl Refusals {
    /// Returns an empty table of refusals for `edge_count` edges.
    fn none(alloc: Global, edge_count: usize) -> Result<Refusals, AllocError>
        ensures sized { IfOk result (AreSized edge_count) }
        ensures blank { IfOk result (λ r. (e : ℕ) (h : Half) → has_mark r e h ≡ false) }
    {
        Ok(Refusals {
            full: IxBitSet::empty(alloc, edge_count)?,
            required: IxBitSet::empty(alloc, edge_count)?,
            optional: IxBitSet::empty(alloc, edge_count)?,
        })
    }

    /// Marks `half` of `edge` as refused. An edge past the table's size is ignored.
    fn note(&mut self, edge: usize, half: Half)
        ensures { (count : ℕ) → AreSized count self.old → AreSized count self.new
            × ((e : ℕ) (h : Half) → e < count → has_mark self.new e h
            ≡ (has_mark self.old e h || ((edge == e) && is_half half h))) }
    {
        match half {
            Half::Full => put(&mut self.full, edge),
            Half::Required => put(&mut self.required, edge),
            Half::Optional => put(&mut self.optional, edge),
        }
    }

    /// Returns the refusals in `refused`. Entries for edges from `edge_count` on are ignored.
    pub(crate) fn of(
        alloc: Global,
        edge_count: usize,
        refused: &[(usize, Half)],
    ) -> Result<Refusals, AllocError>
        ensures { IfOk result (λ r. (e : ℕ) (h : Half) → e < edge_count
            → has_mark r e h ≡ is_refused refused.now e h) }
    {
        let mut refusals = Refusals::none(alloc, edge_count)?;
        for (edge, half) in refused {
            refusals.note(*edge, *half);
        }
        Ok(refusals)
    }

    /// Returns true if `half` of `edge` is refused.
    pub(crate) fn has(&self, edge: usize, half: Half) -> bool
        ensures { result ≡ has_mark self.now edge half }
    {
        match half {
            Half::Full => holds(&self.full, edge),
            Half::Required => holds(&self.required, edge),
            Half::Optional => holds(&self.optional, edge),
        }
    }
}
