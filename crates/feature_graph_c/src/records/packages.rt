//! Packages and package links as bytes.
ghost use Rattle.std.specs.Prelude.{◌≡◌, ◌++◌, OnOk, map, string_bytes};
ghost use Rattle.feature_graph_c.specs.binary.Records.{optional, text};
ghost use Rattle.guppy_packages.specs.Metadata.{link_table_of, package_table_of};
ghost use Rattle.guppy_packages.specs.NamedFeature.{feature_table};
ghost use Rattle.guppy_packages.specs.Platform.{platform_text};
ghost use Rattle.guppy_packages.specs.Stored.{declared};
ghost use Rattle.feature_graph_c.specs.records.Packages.{declaration_record, feature_record, kind_record, link_record, package_record};

use crate::binary::{Entries, push_flag, push_list, push_number, push_text};
use guppy_packages::{
    Declaration, DependencyKind, NamedFeature, PackageGraph, PackageLink, PackageMetadata,
    PlatformStatusImpl,
};
use std::alloc::AllocError;

/// The items of a named feature.
#[derive(Clone, Copy)]
struct Items<'a>(&'a NamedFeature);

impl Entries for Items<'_> {
    ghost entries = { λ items. map text (feature_table items.0.now).items };

    fn count(&self) -> usize {
        self.0.item_count()
    }

    #[tactic(auto, using(crate::proofs::EntryLemmas::entry_of))]
    fn push(&self, at: usize, bytes: &mut Vec<u8>) -> Result<(), AllocError> {
        push_text(bytes, self.0.item(at))
    }
}

/// Named features.
#[derive(Clone, Copy)]
struct Features<'a>(&'a [NamedFeature]);

/// Appends a named feature.
fn push_feature(bytes: &mut Vec<u8>, feature: &NamedFeature) -> Result<(), AllocError>
    ensures { OnOk result (bytes.new.items ≡ bytes.old.items ++ feature_record (feature_table feature.now)) }
{
    push_text(bytes, feature.name())?;
    push_list(bytes, &Items(feature))
}

impl Entries for Features<'_> {
    ghost entries = { λ features. map feature_record (map feature_table features.0.now) };

    fn count(&self) -> usize {
        self.0.len()
    }

    fn push(&self, at: usize, bytes: &mut Vec<u8>) -> Result<(), AllocError> {
        push_feature(bytes, &self.0[at])
    }
}

/// Names.
#[derive(Clone, Copy)]
struct Names<'a>(&'a [String]);

impl Entries for Names<'_> {
    ghost entries = { λ names. map text (map string_bytes names.0.now) };

    fn count(&self) -> usize {
        self.0.len()
    }

    fn push(&self, at: usize, bytes: &mut Vec<u8>) -> Result<(), AllocError> {
        push_text(bytes, self.0[at].as_str())
    }
}

/// Appends a package.
fn push_package(bytes: &mut Vec<u8>, metadata: PackageMetadata<'_>) -> Result<(), AllocError>
    ensures { OnOk result (bytes.new.items ≡ bytes.old.items ++ package_record (package_table_of metadata.entry)) }
{
    push_text(bytes, metadata.id().repr())?;
    push_flag(bytes, metadata.in_workspace())?;
    push_list(bytes, &Features(metadata.named_features()))?;
    push_list(bytes, &Names(metadata.optional_deps()))
}

/// The packages of a graph.
#[derive(Clone, Copy)]
pub(crate) struct Packages<'a>(pub(crate) &'a PackageGraph);

impl Entries for Packages<'_> {
    ghost entries = { λ packages. map package_record packages.0.now.packages };

    fn count(&self) -> usize {
        self.0.package_count()
    }

    #[tactic(auto, using(crate::proofs::EntryLemmas::entry_of))]
    fn push(&self, at: usize, bytes: &mut Vec<u8>) -> Result<(), AllocError> {
        push_package(bytes, self.0.package(at))
    }
}

/// Appends a dependency kind.
fn push_kind(bytes: &mut Vec<u8>, kind: DependencyKind) -> Result<(), AllocError>
    ensures { OnOk result (bytes.new.items ≡ bytes.old.items ++ kind_record kind) }
{
    match kind {
        DependencyKind::Normal => push_number(bytes, 0),
        DependencyKind::Build => push_number(bytes, 1),
        DependencyKind::Development => push_number(bytes, 2),
    }
}

/// Appends the platform of a declaration.
fn push_platform(bytes: &mut Vec<u8>, platform: &PlatformStatusImpl) -> Result<(), AllocError>
    ensures { OnOk result (bytes.new.items ≡ bytes.old.items ++ optional text (platform_text platform.now)) }
{
    match platform {
        PlatformStatusImpl::Always => push_number(bytes, 0),
        PlatformStatusImpl::Specs(specs) => match specs.as_slice() {
            [] => push_number(bytes, 0),
            [spec, ..] => {
                push_number(bytes, 1)?;
                push_text(bytes, spec.text())
            }
        },
    }
}

/// The features that a declaration lists.
#[derive(Clone, Copy)]
struct ListedFeatures<'a>(&'a Declaration);

impl Entries for ListedFeatures<'_> {
    ghost entries = { λ listed. map text (declared listed.0.now).features };

    fn count(&self) -> usize {
        self.0.feature_count()
    }

    #[tactic(auto, using(crate::proofs::EntryLemmas::entry_of))]
    fn push(&self, at: usize, bytes: &mut Vec<u8>) -> Result<(), AllocError> {
        push_text(bytes, self.0.feature(at))
    }
}

/// Appends a declaration.
#[tactic(auto, using(crate::proofs::PlatformLemmas::platform_is))]
fn push_declaration(bytes: &mut Vec<u8>, declaration: &Declaration) -> Result<(), AllocError>
    ensures { OnOk result (bytes.new.items ≡ bytes.old.items ++ declaration_record (declared declaration.now)) }
{
    push_kind(bytes, declaration.kind())?;
    push_flag(bytes, declaration.optional())?;
    push_platform(bytes, declaration.platform())?;
    push_flag(bytes, declaration.default_features())?;
    push_list(bytes, &ListedFeatures(declaration))
}

/// The declarations of a package link.
#[derive(Clone, Copy)]
struct Declarations<'a>(&'a [Declaration]);

impl Entries for Declarations<'_> {
    ghost entries = { λ declarations. map declaration_record (map declared declarations.0.now) };

    fn count(&self) -> usize {
        self.0.len()
    }

    fn push(&self, at: usize, bytes: &mut Vec<u8>) -> Result<(), AllocError> {
        push_declaration(bytes, &self.0[at])
    }
}

/// Appends a package link.
fn push_link(bytes: &mut Vec<u8>, link: PackageLink<'_>) -> Result<(), AllocError>
    ensures { OnOk result (bytes.new.items ≡ bytes.old.items ++ link_record (link_table_of link.entry)) }
{
    push_number(bytes, link.from().package_ix())?;
    push_number(bytes, link.to().package_ix())?;
    push_text(bytes, link.dep_name())?;
    push_list(bytes, &Declarations(link.declarations()))
}

/// The package links of a graph.
#[derive(Clone, Copy)]
pub(crate) struct Links<'a>(pub(crate) &'a PackageGraph);

impl Entries for Links<'_> {
    ghost entries = { λ links. map link_record links.0.now.links };

    fn count(&self) -> usize {
        self.0.link_count()
    }

    #[tactic(auto, using(crate::proofs::EntryLemmas::entry_of))]
    fn push(&self, at: usize, bytes: &mut Vec<u8>) -> Result<(), AllocError> {
        push_link(bytes, self.0.link(at))
    }
}
