//! The weak links of keys, with their gates.
ghost use Rattle.std.specs.Prelude.{◌≡◌, ◌++◌, ◌∷◌, [], ℕ, List, Contains, OnOk, map};
ghost use Rattle.feature_edges.specs.declared.candidate.Key.{Key as KeyValue};
ghost use Rattle.feature_edges.specs.Edges.{first_ones};
ghost use Rattle.feature_edges.specs.inner.GateNodes.{AreGateNodes};
ghost use Rattle.feature_edges.specs.inner.Parts.{IsOfTables};
ghost use Rattle.feature_edges.specs.inner.Weak.{AreGates, weak_sources};

use crate::candidate::{CandidateKind, Key};
use crate::gate_nodes::gate_at;
use crate::node_numbers::Numbers;
use indexmap::IndexMap;
use std::alloc::AllocError;

/// Inserts the weak link of `key` and its gate into `table`, if the edge of `key` is weak. `gates` has the gate of each package
/// link.
pub(crate) fn note_gate(
    table: &mut IndexMap<usize, usize>,
    numbers: Numbers<'_>,
    gates: &[u32],
    key: Key,
) -> Result<(), AllocError>
    requires of_tables { IsOfTables numbers.graph.now key }
    requires gates { AreGateNodes numbers.graph.now gates.now }
    ensures links { OnOk result ((done : List KeyValue) → map (λ e. e.0) table.old.entries ≡ first_ones (weak_sources done) → map (λ e. e.0) table.new.entries ≡ first_ones (weak_sources (done ++ key ∷ []))) }
    ensures grown { OnOk result ((more : List ℕ) × (map (λ e. e.0) table.new.entries ≡ map (λ e. e.0) table.old.entries ++ more)) }
    ensures noted { OnOk result (key.kind ≡ CandidateKind.SlashWeak → Contains (map (λ e. e.0) table.new.entries) key.source) }
    ensures gates { OnOk result (AreGates numbers.entry.graph.now table.old.entries → AreGates numbers.entry.graph.now table.new.entries) }
{
    if !key.kind.is_weak() {
        return Ok(());
    }
    let gate = gate_at(numbers, gates, key.source as usize);
    table.insert(key.source as usize, gate)?;
    Ok(())
}
