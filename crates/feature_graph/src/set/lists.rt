//! The members of a set that belong to one package.
ghost use Rattle.std.specs.Prelude.{◌≡◌, ◌<◌, ◌≤◌, IfOk, IfErr, OnOk, Contains, ◌↔◌, ◌+◌, length, map};
ghost use Rattle.feature_core.specs.Errors.{refusal_of};
ghost use Rattle.feature_core.specs.Nodes.{first_node};
ghost use Rattle.feature_labels.specs.Names.{label_of};
ghost use Rattle.feature_graph.specs.Names.{RefusesPackage};
ghost use Rattle.feature_graph.specs.PackageLists.{HasMemberAt, ListsMembers, TellsFeatures};
ghost use Rattle.feature_graph.specs.inner.MemberLabels.{AddsLabel};

use crate::set::FeatureSet;
use feature_core::Error;
use feature_labels::{FeatureLabel, FeatureList};
use guppy_packages::PackageId;
use std::alloc::{AllocError, Global};

impl<'g> FeatureSet<'g> {
    /// Appends the label of `node`, a node of the package, if it is in the set.
    fn push_label(
        &self,
        package_ix: usize,
        node: usize,
        labels: &mut Vec<FeatureLabel<'g>>,
    ) -> Result<(), AllocError>
        requires within { package_ix < length self.now.graph.tables.packages }
        requires first { first_node self.now.graph.tables package_ix ≤ node }
        requires last { node < first_node self.now.graph.tables (package_ix + 1) }
        ensures { OnOk result (AddsLabel self.now.graph.tables self.now.members package_ix node (map label_of labels.old.items) (map label_of labels.new.items)) }
    {
        if self.members.contains(node) {
            labels.push(self.graph.id(node).label())?;
        }
        Ok(())
    }

    /// Returns the labels of the package's features that are in the set.
    fn labels_of(
        &self,
        alloc: Global,
        package_ix: usize,
    ) -> Result<Vec<FeatureLabel<'g>>, AllocError>
        requires { package_ix < length self.now.graph.tables.packages }
        ensures { IfOk result (λ labels. (label : _) → Contains (map label_of labels.items) label ↔ HasMemberAt self.now.graph.tables self.now.members package_ix label) }
    {
        let nodes = self.graph.nodes_of(package_ix);
        let mut labels = Vec::new(alloc);
        'nodes: for node in nodes.start..nodes.end {
            self.push_label(package_ix, node, &mut labels)?;
        }
        Ok(labels)
    }

    /// Returns the list of the package's features that are in the set.
    pub(crate) fn list_of(
        &self,
        alloc: Global,
        package_ix: usize,
    ) -> Result<FeatureList<'g>, AllocError>
        requires { package_ix < length self.now.graph.tables.packages }
        ensures { IfOk result (ListsMembers self.now.graph.tables self.now.members package_ix) }
    {
        let labels = self.labels_of(alloc, package_ix)?;
        let package = self.graph.package_graph().package(package_ix);
        FeatureList::new(alloc, package, labels.as_slice())
    }

    /// Returns the set's features of a package, sorted, or `None` if it has none of them. The error is
    /// `UnknownPackageId` if no package has this id, or `Memory`.
    pub fn features_for<'a>(
        &self,
        alloc: Global,
        package_id: &'a PackageId,
    ) -> Result<Option<FeatureList<'g>>, Error<'a>>
        ensures told { IfOk result (λ found. TellsFeatures self.now.graph.tables self.now.members package_id.now found) }
        ensures refused { IfErr result (λ e. RefusesPackage self.now.graph.tables package_id.now (refusal_of e)) }
    {
        let Ok(package) = self.graph.package_graph().metadata(package_id) else {
            return Err(Error::UnknownPackageId(package_id));
        };
        let package_ix = package.package_ix();
        if !self.has_member_of(package_ix) {
            return Ok(None);
        }
        match self.list_of(alloc, package_ix) {
            Ok(list) => Ok(Some(list)),
            Err(_) => Err(Error::Memory),
        }
    }
}
