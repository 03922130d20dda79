//! The edges of a feature graph as bytes, its weak links, its warnings and its default features.
ghost use Rattle.std.specs.Prelude.{◌≡◌, ◌++◌, ◌<◌, ℕ, OnOk, Some, length, map, slice_get, string_bytes};
ghost use Rattle.feature_graph_c.specs.binary.Records.{number, optional, text};
ghost use Rattle.guppy_packages.specs.Platform.{spec_text, status_of};
ghost use Rattle.feature_links.specs.Facts.{EdgeFacts, weak_edge};
ghost use Rattle.feature_links.specs.Values.{edge_facts, half_facts, link_facts, weak_facts_of, weak_link_of};
ghost use Rattle.feature_core.specs.Warnings.{warning_of};
ghost use Rattle.feature_graph_c.specs.records.Edges.{covered_record, edge_record, facts_record, link_record, status_record, warning_record, weak_record};

use crate::binary::{Entries, Numbers, push_list, push_number, push_text};
use feature_core::{
    ConditionalLinkImpl, EnabledLink, FeatureEdge, FeatureGraphData, FeatureGraphWarning,
    WeakSlashImpl,
};
use feature_labels::LinkDeclarations;
use guppy_packages::{PackageId, PlatformStatus, Spec};
use indexmap::IndexMap;
use std::alloc::AllocError;

/// Platform specs.
#[derive(Clone, Copy)]
struct Specs<'a>(&'a [Spec]);

impl Entries for Specs<'_> {
    ghost entries = { λ specs. map text (map spec_text specs.0.now) };

    fn count(&self) -> usize {
        self.0.len()
    }

    fn push(&self, at: usize, bytes: &mut Vec<u8>) -> Result<(), AllocError> {
        push_text(bytes, self.0[at].text())
    }
}

/// Appends a platform status.
fn push_status(bytes: &mut Vec<u8>, status: PlatformStatus<'_>) -> Result<(), AllocError>
    ensures { OnOk result (bytes.new.items ≡ bytes.old.items ++ status_record (status_of status.entry)) }
{
    match status {
        PlatformStatus::Never => push_number(bytes, 0),
        PlatformStatus::Always => push_number(bytes, 1),
        PlatformStatus::PlatformDependent(specs) => {
            push_number(bytes, 2)?;
            push_list(bytes, &Specs(specs))
        }
    }
}

/// Appends the declarations that a link covers.
fn push_covered(bytes: &mut Vec<u8>, declarations: LinkDeclarations) -> Result<(), AllocError>
    ensures { OnOk result (bytes.new.items ≡ bytes.old.items ++ covered_record declarations) }
{
    match declarations {
        LinkDeclarations::Unsplit => push_number(bytes, 0),
        LinkDeclarations::Required => push_number(bytes, 1),
        LinkDeclarations::Optional => push_number(bytes, 2),
    }
}

/// Appends a link.
fn push_link(bytes: &mut Vec<u8>, link: &ConditionalLinkImpl) -> Result<(), AllocError>
    ensures { OnOk result (bytes.new.items ≡ bytes.old.items ++ link_record (link_facts link.now)) }
{
    push_covered(bytes, link.declarations())?;
    push_status(bytes, link.normal())?;
    push_status(bytes, link.build())?;
    push_status(bytes, link.dev())?;
    push_list(bytes, &Numbers(link.package_link_ixs()))
}

/// Appends a half of a weak edge.
fn push_half(bytes: &mut Vec<u8>, half: &EnabledLink) -> Result<(), AllocError>
    ensures { OnOk result (bytes.new.items ≡ bytes.old.items ++ optional link_record (half_facts half.now)) }
{
    match half.get() {
        None => push_number(bytes, 0),
        Some(link) => {
            push_number(bytes, 1)?;
            push_link(bytes, link)
        }
    }
}

/// Appends a weak edge, after its kind.
fn push_weak(bytes: &mut Vec<u8>, weak: &WeakSlashImpl) -> Result<(), AllocError>
    ensures { OnOk result (bytes.new.items ≡ bytes.old.items ++ facts_record (weak_edge (weak_link_of weak.now) (weak_facts_of weak.now))) }
{
    push_number(bytes, 5)?;
    push_link(bytes, weak.link())?;
    push_number(bytes, weak.index().index())?;
    push_half(bytes, weak.required())?;
    push_half(bytes, weak.optional())
}

/// Appends a link after the number of its edge's kind.
fn push_with_kind(
    bytes: &mut Vec<u8>,
    kind: usize,
    link: &ConditionalLinkImpl,
) -> Result<(), AllocError>
    ensures { OnOk result (bytes.new.items ≡ bytes.old.items ++ (number kind ++ link_record (link_facts link.now))) }
{
    push_number(bytes, kind)?;
    push_link(bytes, link)
}

/// Appends the kind of an edge, and its link if it is conditional.
fn push_facts(bytes: &mut Vec<u8>, edge: &FeatureEdge) -> Result<(), AllocError>
    ensures { OnOk result (bytes.new.items ≡ bytes.old.items ++ facts_record (edge_facts edge.now)) }
{
    match edge {
        FeatureEdge::FeatureToBase => push_number(bytes, 0),
        FeatureEdge::NamedFeature => push_number(bytes, 1),
        FeatureEdge::NamedFeatureDepColon(link) => push_with_kind(bytes, 2, link),
        FeatureEdge::NamedFeatureWithSlash(link) => push_with_kind(bytes, 3, link),
        FeatureEdge::DependenciesSection(link) => push_with_kind(bytes, 4, link),
        FeatureEdge::NamedFeatureWithWeakSlash(weak) => push_weak(bytes, weak),
    }
}

/// Appends edge `number`.
fn push_edge(bytes: &mut Vec<u8>, built: &FeatureGraphData, number: usize) -> Result<(), AllocError>
    requires { number < length built.now.edges }
    ensures { OnOk result ((edge : ℕ × ℕ × EdgeFacts) × (slice_get built.now.edges number ≡ Some edge) × (bytes.new.items ≡ bytes.old.items ++ edge_record edge)) }
{
    let (from, to, edge) = built.edge(number);
    push_number(bytes, from)?;
    push_number(bytes, to)?;
    push_facts(bytes, edge)
}

/// The edges of a feature graph.
#[derive(Clone, Copy)]
pub(crate) struct Edges<'a>(pub(crate) &'a FeatureGraphData);

impl Entries for Edges<'_> {
    ghost entries = { λ edges. map edge_record edges.0.now.edges };

    fn count(&self) -> usize {
        self.0.edge_count()
    }

    #[tactic(auto, using(crate::proofs::EntryLemmas::entry_of))]
    fn push(&self, at: usize, bytes: &mut Vec<u8>) -> Result<(), AllocError> {
        push_edge(bytes, self.0, at)
    }
}

/// Appends a weak link: its package link and its gate.
fn push_weak_link(bytes: &mut Vec<u8>, link: usize, gate: usize) -> Result<(), AllocError>
    ensures { OnOk result (bytes.new.items ≡ bytes.old.items ++ weak_record (link, gate)) }
{
    push_number(bytes, link)?;
    push_number(bytes, gate)
}

/// Weak links with their gates.
#[derive(Clone, Copy)]
pub(crate) struct WeakLinks<'a>(pub(crate) &'a IndexMap<usize, usize>);

impl Entries for WeakLinks<'_> {
    ghost entries = { λ weak. map weak_record weak.0.now.entries };

    fn count(&self) -> usize {
        self.0.len()
    }

    fn push(&self, at: usize, bytes: &mut Vec<u8>) -> Result<(), AllocError> {
        let Some((link, gate)) = self.0.get_index(at) else {
            unreachable!()
        };
        push_weak_link(bytes, *link, *gate)
    }
}

/// Appends a package's id and the name of a feature.
fn push_feature(bytes: &mut Vec<u8>, id: &PackageId, name: &String) -> Result<(), AllocError>
    ensures { OnOk result (bytes.new.items ≡ bytes.old.items ++ (text id.now ++ text (string_bytes name.now))) }
{
    push_text(bytes, id.repr())?;
    push_text(bytes, name.as_str())
}

/// Appends a warning.
fn push_warning(bytes: &mut Vec<u8>, warning: &FeatureGraphWarning) -> Result<(), AllocError>
    ensures { OnOk result (bytes.new.items ≡ bytes.old.items ++ warning_record (warning_of warning.now)) }
{
    match warning {
        FeatureGraphWarning::MissingFeature {
            package_id,
            feature_name,
        } => {
            push_number(bytes, 0)?;
            push_feature(bytes, package_id, feature_name)
        }
        FeatureGraphWarning::SelfLoop {
            package_id,
            feature_name,
        } => {
            push_number(bytes, 1)?;
            push_feature(bytes, package_id, feature_name)
        }
    }
}

/// Warnings.
#[derive(Clone, Copy)]
pub(crate) struct Warnings<'a>(pub(crate) &'a [FeatureGraphWarning]);

impl Entries for Warnings<'_> {
    ghost entries = { λ warnings. map warning_record (map warning_of warnings.0.now) };

    fn count(&self) -> usize {
        self.0.len()
    }

    fn push(&self, at: usize, bytes: &mut Vec<u8>) -> Result<(), AllocError> {
        push_warning(bytes, &self.0[at])
    }
}
