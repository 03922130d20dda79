//! Queries from the features of the workspace.
ghost use Rattle.std.specs.Prelude.{◌≡◌, ◌<◌, Some, IfOk, IfErr, slice_get, length};
ghost use Rattle.feature_core.specs.Nodes.{nodes};
ghost use Rattle.feature_core.specs.Built.{NodeNamed};
ghost use Rattle.feature_graph.specs.Filters.{AsksNode, MayAskEach, SelectsByFilter, workspace_marks, workspace_names};
ghost use Rattle.feature_graph.specs.Views.{graph_of, tables_of_graph};

use crate::graph::FeatureGraph;
use crate::graph::ids::insert_id;
use crate::query::FeatureQuery;
use crate::query::filter::FeatureFilter;
use crate::set::FeatureSet;
use digraphs::IxBitSet;
use feature_core::Error;
use guppy_packages::DependencyDirection;
use std::alloc::Global;

impl<'g> FeatureGraph<'g> {
    /// Returns true if the package of `node` is in the workspace.
    fn is_in_workspace(&self, node: usize) -> bool
        requires { node < length (nodes (tables_of_graph self.now)) }
        ensures { slice_get (workspace_marks (tables_of_graph self.now)) node ≡ Some result }
    {
        let package_ix = self.built.package_of(node);
        self.graph.package(package_ix).in_workspace()
    }

    /// Calls the filter for the feature of `node`, and inserts the node into `members` if the filter accepts it.
    fn ask_node<F: FeatureFilter<'g>>(&self, node: usize, filter: &mut F, members: &mut IxBitSet)
        requires node { node < length (nodes (tables_of_graph self.now)) }
        requires size { length members.old ≡ length (nodes (tables_of_graph self.now)) }
        requires allowed { (name : _) → NodeNamed (tables_of_graph self.now) node name → F.can_accept filter.old (graph_of self.now) name }
        ensures { AsksNode F.accept_gives (graph_of self.now) node filter.old filter.new members.old members.new }
    {
        let id = self.id(node);
        if filter.accept(self, id) {
            insert_id(*self, id, members);
        }
    }

    /// Returns the forward query from the features that `filter` accepts, among those of the workspace's packages.
    /// Calls `filter` once for each of these features, in the order of the nodes, after all allocations. `Memory` is
    /// the only error, and then `filter` wasn't called.
    pub fn query_workspace<F: FeatureFilter<'g>>(
        &self,
        alloc: Global,
        filter: &mut F,
    ) -> Result<FeatureQuery<'g>, Error<'g>>
        requires { MayAskEach F.can_accept F.accept_gives (graph_of self.now) (workspace_names (tables_of_graph self.now)) filter.old }
        ensures graph { IfOk result (λ query. query.graph ≡ graph_of self.now) }
        ensures direction { IfOk result (λ query. query.direction ≡ DependencyDirection.Forward) }
        ensures initials { IfOk result (λ query. SelectsByFilter F.accept_gives (graph_of self.now) filter.old filter.new query.initials) }
        ensures refused { IfErr result (λ e. e ≡ Error.Memory) }
        ensures untouched { IfErr result (λ e. filter.new ≡ filter.old) }
    {
        let count = self.feature_count();
        let mut members = IxBitSet::empty(alloc, count)?;
        'nodes: for node in 0..count {
            if self.is_in_workspace(node) {
                self.ask_node(node, filter, &mut members);
            }
        }
        let initials = FeatureSet::new(*self, members);
        Ok(FeatureQuery::new(initials, DependencyDirection::Forward))
    }
}
