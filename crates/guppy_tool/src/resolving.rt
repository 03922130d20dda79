//! The output of `resolve` and `visit`, and the query from ids on the command line.
ghost use Rattle.std.specs.Prelude.{◌≡◌, Bool, IfOk, IfErr, true, map};
ghost use Rattle.feature_labels.specs.Names.{id_of};
ghost use Rattle.feature_core.specs.Built.{IsBuilt};
ghost use Rattle.feature_core.specs.Errors.{refusal_of as graph_refusal_of};
ghost use Rattle.feature_graph.specs.Names.{AreKnown, HoldsExactly};
ghost use Rattle.feature_graph.specs.Views.{graph_of, tables_of_graph};
ghost use Rattle.guppy_tool.specs.Faults.{refusal_of, IfNotMemory};
ghost use Rattle.guppy_tool.specs.Words.{given_of};
ghost use Rattle.guppy_tool.specs.Words.CommandText.{resolve, visit};
ghost use Rattle.guppy_tool.specs.Answers.{IsOutput, IsToldAs, MayRefuseIds, NamesUnknown};
ghost use Rattle.guppy_tool.specs.Run.{GivesAnswer};

use crate::fault::Fault;
use crate::listing::list;
use crate::words::GivenId;
use feature_core::graph_laws::one_content;
use guppy_features::{
    ConditionalLink, Error, FeatureGraph, FeatureGraphData, FeatureGraphExt, FeatureId,
    FeatureLinkContext, FeatureLinkVisitor, FeatureQuery,
};
use guppy_packages::{DependencyDirection, PackageGraph};
use std::alloc::{AllocError, Global};

/// Returns the feature ids for `given`.
fn ids_of<'a, 'b>(alloc: Global, given: &'a [GivenId<'b>]) -> Result<Vec<FeatureId<'a>>, AllocError>
    ensures { IfOk result (λ ids. map id_of ids.items ≡ map given_of given.now) }
{
    let mut ids = Vec::new(alloc);
    for id in given {
        ids.push(FeatureId::new(&id.package_id, id.label))?;
    }
    Ok(ids)
}

/// Returns the fault for an error of a query over ids.
fn fault_of(alloc: Global, error: Error<'_>) -> Fault
    requires { MayRefuseIds (graph_refusal_of error) }
    ensures { IsToldAs (refusal_of result) (graph_refusal_of error.entry) }
{
    match error {
        Error::UnknownFeatureId(id) => match format!(in alloc; "{id}") {
            Ok(id) => Fault::UnknownFeature { id },
            Err(_) => Fault::Memory,
        },
        Error::Memory => Fault::Memory,
        Error::UnknownPackageId(_) | Error::FeatureGraphInternalError { .. } => unreachable!(),
    }
}

/// Returns the query from `given` in this direction. The error is `UnknownFeature` with the first unknown id, or
/// `Memory`.
pub fn queried<'g>(
    alloc: Global,
    graph: FeatureGraph<'g>,
    direction: DependencyDirection,
    given: &[GivenId],
) -> Result<FeatureQuery<'g>, Fault>
    ensures graph { IfOk result (λ query. query.graph ≡ graph_of graph.entry) }
    ensures direction { IfOk result (λ query. query.direction ≡ direction) }
    ensures known { IfOk result (λ query. AreKnown (tables_of_graph graph.entry) (map given_of given.now)) }
    ensures initials { IfOk result (λ query. HoldsExactly (tables_of_graph graph.entry) query.initials (map given_of given.now)) }
    ensures refused { IfErr result (λ fault. IfNotMemory (refusal_of fault) (NamesUnknown (tables_of_graph graph.entry) (map given_of given.now) (refusal_of fault))) }
{
    let ids = ids_of(alloc, given)?;
    match graph.query_directed(alloc, &ids, direction) {
        Ok(query) => Ok(query),
        Err(error) => Err(fault_of(alloc, error)),
    }
}

/// Returns a line for each feature that is reachable from `given`. The error is `UnknownFeature` with the first unknown
/// id, or `Memory`.
pub fn resolved(
    alloc: Global,
    graph: &PackageGraph,
    built: &FeatureGraphData,
    direction: DependencyDirection,
    given: &[GivenId],
) -> Result<Vec<u8>, Fault>
    requires { IsBuilt graph.now built.now }
    ensures { GivesAnswer (λ text. text.items) result (IsOutput (resolve direction (map given_of given.now)) graph.now) }
{
    let query = queried(alloc, graph.feature_graph(built), direction, given)?;
    let Ok(set) = query.resolve(alloc) else {
        return Err(Fault::Memory);
    };
    Ok(list(alloc, &set)?)
}

/// A visitor that accepts every link.
#[derive(Drop)]
struct AllLinks;

impl<'g> FeatureLinkVisitor<'g> for AllLinks {
    ghost can_visit = { λ _ _ _. Unit {0} };

    ghost visit_gives = { λ _ _ _ answer _. answer ≡ true };

    fn visit_link(&mut self, _cx: &FeatureLinkContext<'g>, _link: ConditionalLink<'g>) -> bool {
        true
    }
}

/// Returns a line for each feature of the least set that contains `given` and is closed under all links. The error is
/// `UnknownFeature` with the first unknown id, or `Memory`.
pub fn visited(
    alloc: Global,
    graph: &PackageGraph,
    built: &FeatureGraphData,
    direction: DependencyDirection,
    given: &[GivenId],
) -> Result<Vec<u8>, Fault>
    requires { IsBuilt graph.now built.now }
    ensures { GivesAnswer (λ text. text.items) result (IsOutput (visit direction (map given_of given.now)) graph.now) }
{
    let query = queried(alloc, graph.feature_graph(built), direction, given)?;
    one_content(graph);
    let Ok(set) = query.resolve_with(alloc, &mut AllLinks) else {
        return Err(Fault::Memory);
    };
    Ok(list(alloc, &set)?)
}
