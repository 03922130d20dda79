//! A filter that counts what it is asked, under the filters over lists.
ghost use Rattle.std.specs.Prelude.{◌≡◌, ◌+◌, ◌-◌, ◌^◌, min, IfOk};
ghost use Rattle.guppy_features.specs.ListedFilters.{base_of_ids, base_of_names};
ghost use Rattle.guppy_features.specs.feature_graph.Views.{graph_of};
ghost use Rattle.uses.specs.Answers.{CountsWorkspace};

use crate::failure::Failure;
use crate::out::Out;
use guppy_features::{
    Error, FeatureFilter, FeatureGraph, FeatureId, FeatureIdFilter, FeatureQuery,
    NamedFeatureFilter, PackageId, StandardFeatures, feature_id_filter, named_feature_filter,
};
use std::alloc::Global;

/// A filter that calls another filter, and counts its own questions.
#[derive(Drop)]
pub struct Counted<B> {
    pub base: B,
    pub asked: u64,
}

impl<'g, B: FeatureFilter<'g>> FeatureFilter<'g> for Counted<B> {
    // it may be asked what its base may be asked, answers as its base does, and counts one more
    ghost can_accept = { λ s g i. B.can_accept s.base g i };

    ghost accept_gives = { λ s g i r t. (t.asked ≡ min (s.asked + 1) (2 ^ 64 - 1)) × B.accept_gives s.base g i r t.base };

    fn accept(&mut self, graph: &FeatureGraph<'g>, feature_id: FeatureId<'g>) -> bool {
        self.asked = self.asked.saturating_add(1);
        self.base.accept(graph, feature_id)
    }
}

/// A counting filter that accepts the base of each package.
type CountedBases = Counted<StandardFeatures>;

/// Returns the query that starts from the workspace's bases and from the named features in `names`.
fn by_names<'g>(
    alloc: Global,
    graph: FeatureGraph<'g>,
    names: &[&'g str],
    base: &mut CountedBases,
) -> Result<FeatureQuery<'g>, Error<'g>> {
    let mut filter = named_feature_filter(alloc, base, names)?;
    let selected = select_by_names(alloc, graph, &mut filter);
    drop(filter);
    selected
}

/// Selects by `filter`, whose base stays the same reference.
fn select_by_names<'g, 'a>(
    alloc: Global,
    graph: FeatureGraph<'g>,
    filter: &mut NamedFeatureFilter<'a, &mut CountedBases>,
) -> Result<FeatureQuery<'g>, Error<'g>>
    ensures same_reference { (base_of_names filter.new).ghost_name ≡ (base_of_names filter.old).ghost_name }
    ensures counted { IfOk result (λ _. CountsWorkspace (graph_of graph.entry) (base_of_names filter.old).now.asked (base_of_names filter.new).now.asked) }
{
    graph.query_workspace(alloc, filter)
}

/// Returns the query that starts from the workspace's bases and from the features in `ids`.
fn by_ids<'g>(
    alloc: Global,
    graph: FeatureGraph<'g>,
    ids: &[FeatureId<'g>],
    base: &mut CountedBases,
) -> Result<FeatureQuery<'g>, Error<'g>> {
    let mut filter = feature_id_filter(alloc, base, ids)?;
    let selected = select_by_ids(alloc, graph, &mut filter);
    drop(filter);
    selected
}

/// Selects by `filter`, whose base stays the same reference.
fn select_by_ids<'g, 'a>(
    alloc: Global,
    graph: FeatureGraph<'g>,
    filter: &mut FeatureIdFilter<'a, &mut CountedBases>,
) -> Result<FeatureQuery<'g>, Error<'g>>
    ensures same_reference { (base_of_ids filter.new).ghost_name ≡ (base_of_ids filter.old).ghost_name }
    ensures counted { IfOk result (λ _. CountsWorkspace (graph_of graph.entry) (base_of_ids filter.old).now.asked (base_of_ids filter.new).now.asked) }
{
    graph.query_workspace(alloc, filter)
}

/// Prints the count of a filter.
fn show_count(out: &Out, counted: &CountedBases) {
    out.part("asked ");
    out.line(counted.asked);
}

/// Prints the features that are selected by ids, with the count of a filter that was asked before.
fn show_by_ids(
    out: &Out,
    alloc: Global,
    graph: FeatureGraph<'_>,
    counted: &mut CountedBases,
) -> Result<(), Failure> {
    let main = PackageId::new(alloc, "main")?;
    let id = FeatureId::optional_dependency(&main, "smallvec");
    out.initials("selected by ids", by_ids(alloc, graph, &[id], counted))
}

/// Prints the features that are selected by names, and those that are selected by ids.
pub fn show(out: &Out, alloc: Global, graph: FeatureGraph<'_>) -> Result<(), Failure> {
    let mut counted = Counted {
        base: StandardFeatures::None,
        asked: 0,
    };
    let query = by_names(alloc, graph, &["smallvec"], &mut counted);
    out.initials("selected by names", query)?;
    show_count(out, &counted);
    show_by_ids(out, alloc, graph, &mut counted)?;
    show_count(out, &counted);
    Ok(())
}
