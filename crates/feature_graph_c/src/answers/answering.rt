//! From rows and a request to the answer.
ghost use Rattle.std.specs.Prelude.{◌≡◌, ◌⊎◌, IfOk};
ghost use Rattle.feature_core.specs.Built.{IsBuilt};
ghost use Rattle.feature_graph_c.specs.records.Descriptions.{Describes};
ghost use Rattle.feature_graph_c.specs.requests.Answers.{Has};
ghost use Rattle.feature_graph_c.specs.answers.Answers as spec;

use crate::answers::call::Call;
use crate::answers::faults::fault_answer;
use crate::binary::{words, write_answer};
use crate::records::push_description;
use crate::requests::{broken, check, cycles, links, order, reach, resolve, roots, status};
use feature_core::FeatureGraphData;
use guppy_packages::PackageGraph;
use row_files::{RowFileError, graph_of};
use std::alloc::{AllocError, Global};

/// Returns the answer with the description of a feature graph.
fn described(
    alloc: Global,
    graph: &PackageGraph,
    built: &FeatureGraphData,
) -> Result<Vec<u8>, AllocError>
    requires { IsBuilt graph.now built.now }
    ensures { IfOk result (λ answer. Has (Describes graph.now built.now) answer.items) }
{
    let mut answer = status(alloc)?;
    push_description(&mut answer, graph, built)?;
    Ok(answer)
}

/// Returns the answer to `call` over a feature graph, for a request with these numbers.
fn answer_words(
    alloc: Global,
    call: Call,
    graph: &PackageGraph,
    built: &FeatureGraphData,
    words: &[usize],
) -> Result<Vec<u8>, AllocError>
    requires { IsBuilt graph.now built.now }
    ensures { IfOk result (λ answer. spec.CallAnswer call graph.now built.now words.now answer.items) }
{
    match call {
        Call::Describe => described(alloc, graph, built),
        Call::Resolve => resolve(alloc, built, words),
        Call::Reach => reach(alloc, graph, built, words),
        Call::Order => order(alloc, built, words),
        Call::Roots => roots(alloc, built, words),
        Call::Links => links(alloc, built, words),
        Call::Cycles => cycles(alloc, built),
        Call::Check => check(alloc, built, words),
    }
}

/// Returns the answer to `call` over a feature graph.
fn answer_built(
    alloc: Global,
    call: Call,
    graph: &PackageGraph,
    built: &FeatureGraphData,
    request: &[u8],
) -> Result<Vec<u8>, AllocError>
    requires { IsBuilt graph.now built.now }
    ensures { IfOk result (λ answer. spec.TablesAnswer call graph.now request.now answer.items) }
{
    match words(alloc, request)? {
        Some(words) => answer_words(alloc, call, graph, built, &words),
        None => broken(alloc),
    }
}

/// Builds the feature graph of `graph`, and returns the answer to `call` over it.
fn answer_graph(
    alloc: Global,
    call: Call,
    graph: &PackageGraph,
    request: &[u8],
) -> Result<Vec<u8>, AllocError>
    ensures { IfOk result (λ answer. spec.TablesAnswer call graph.now request.now answer.items) }
{
    match FeatureGraphData::build(alloc, graph, 0) {
        Ok(built) => answer_built(alloc, call, graph, &built, request),
        Err(_) => Err(AllocError),
    }
}

/// Returns the answer to `call` over the row file `rows`, for the request `request`. `AllocError` is returned when an allocation
/// fails.
pub fn answer(alloc: Global, call: Call, rows: &[u8], request: &[u8]) -> Result<Vec<u8>, AllocError>
    ensures { IfOk result (λ answer. spec.IsAnswer call rows.now request.now answer.items) }
{
    match graph_of(alloc, rows) {
        Ok(graph) => answer_graph(alloc, call, &graph, request),
        Err(RowFileError::Memory) => Err(AllocError),
        Err(error) => fault_answer(alloc, error),
    }
}

/// Writes the answer to `call` over the row file `rows` to `out` if it fits, and returns its length. If it doesn't fit, `out` is
/// unchanged.
pub fn write(alloc: Global, call: Call, rows: &[u8], request: &[u8], out: &mut [u8]) -> usize
    ensures { spec.Wrote call rows.now request.now out.old result out.new }
{
    match answer(alloc, call, rows, request) {
        Ok(answer) => write_answer(&answer, out),
        Err(AllocError) => write_answer(&1_usize.to_le_bytes(), out),
    }
}
