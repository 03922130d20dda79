//! The labels of spots.
ghost use Rattle.std.specs.Prelude.{◌≡◌, ◌++◌, [], IfOk, OnOk, map, option_map, slice_get, string_bytes};
ghost use Rattle.std.specs.Option.{option_map_or};
ghost use Rattle.cargo_workspaces.specs.Views.{package_text};
ghost use Rattle.cargo_workspaces.specs.WorkspaceView.{workspace_text};
ghost use Rattle.feature_labels.specs.Names.{label_of as value_of};
ghost use Rattle.feats_lines.specs.Lines.{name_of};
ghost use Rattle.feats_why.specs.Labels as spec;
ghost use Rattle.plan_whys.specs.StepViews.{spot_text};
ghost use Rattle.feats_why.specs.inner.Labelled.{AreLabels, packages_of};

use cargo_workspaces::{Package, Workspace};
use feats_lines::{label_of, names_of, repeated_in, repeated_names};
use feature_labels::FeatureLabel;
use plan_rows::Side;
use plan_whys::Spot;
use std::alloc::{AllocError, Global};
use std::collections::BTreeSet;

/// What labels are made from.
#[derive(Drop)]
pub(crate) struct Labels<'l, 'v> {
    pub(crate) packages: &'l [Package<'v>],
    /// The names that several packages have.
    pub(crate) names: BTreeSet<&'l str>,
    /// The names with versions that several packages have.
    pub(crate) versions: BTreeSet<&'l str>,
    /// True if ` (host)` follows the labels of spots on the host side.
    pub(crate) sides: bool,
}

/// Returns what labels of `packages` are made from. `versions` are the names and versions of `packages`.
pub(crate) fn labels_of<'l, 'v>(
    alloc: Global,
    packages: &'l [Package<'v>],
    versions: &'l [String],
    sides: bool,
) -> Result<Labels<'l, 'v>, AllocError>
    requires { map string_bytes versions.now ≡ map name_of (map package_text packages.now) }
    ensures labels { IfOk result AreLabels }
    ensures packages { IfOk result (λ labels. packages_of labels ≡ map package_text packages.now) }
    ensures sides { IfOk result (λ labels. labels.sides ≡ sides) }
{
    let names = repeated_names(alloc, packages)?;
    let versions = repeated_in(alloc, versions)?;
    Ok(Labels {
        packages,
        names,
        versions,
        sides,
    })
}

/// Appends the label of `package`.
fn push_package(
    alloc: Global,
    text: &mut String,
    labels: &Labels<'_, '_>,
    package: &Package<'_>,
) -> Result<(), AllocError>
    requires { AreLabels labels.now }
    ensures { OnOk result (string_bytes text.new ≡ string_bytes text.old ++ spec.package_label (packages_of labels.now) (package_text «package».now)) }
{
    if labels.names.contains(package.name) {
        let label = label_of(alloc, &labels.versions, package)?;
        text.push_str(label.as_str())
    } else {
        text.push_str(package.name)
    }
}

/// Appends what follows the package in the label of a spot.
fn push_part(text: &mut String, label: FeatureLabel<'_>) -> Result<(), AllocError>
    ensures { OnOk result (string_bytes text.new ≡ string_bytes text.old ++ spec.part_label (value_of label.entry)) }
{
    match label {
        FeatureLabel::Base => Ok(()),
        FeatureLabel::Named(name) => {
            text.push_str("/")?;
            text.push_str(name)
        }
        FeatureLabel::OptionalDependency(name) => {
            text.push_str("/dep:")?;
            text.push_str(name)
        }
    }
}

/// Appends ` (host)`, if `sides` is true and `side` is the host.
fn push_side(text: &mut String, sides: bool, side: Side) -> Result<(), AllocError>
    ensures { OnOk result (string_bytes text.new ≡ string_bytes text.old ++ spec.side_label sides side) }
{
    match side {
        Side::Host if sides => text.push_str(" (host)"),
        Side::Host | Side::Target => Ok(()),
    }
}

/// Appends the label of `spot`, which is one of `package`; nothing, if there is no package.
fn push_label(
    alloc: Global,
    text: &mut String,
    labels: &Labels<'_, '_>,
    spot: Spot<'_>,
    package: Option<&Package<'_>>,
) -> Result<(), AllocError>
    requires { AreLabels labels.now }
    ensures { OnOk result (string_bytes text.new ≡ string_bytes text.old ++ option_map_or (spec.spot_label_in (packages_of labels.now) labels.now.sides (spot_text spot.entry)) (option_map (λ p. package_text p.now) «package».entry) []) }
{
    match package {
        Some(package) => {
            push_package(alloc, text, labels, package)?;
            push_part(text, spot.label)?;
            push_side(text, labels.sides, spot.side)
        }
        None => Ok(()),
    }
}

/// Returns package `ix`, if there is one.
fn package_at<'p, 'v>(packages: &'p [Package<'v>], ix: usize) -> Option<&'p Package<'v>>
    ensures { option_map (λ p. package_text p.now) result ≡ slice_get (map package_text packages.now) ix }
{
    packages.get(ix)
}

/// Appends the label of `spot`; nothing, if there is no such package.
pub(crate) fn push_spot(
    alloc: Global,
    text: &mut String,
    labels: &Labels<'_, '_>,
    spot: Spot<'_>,
) -> Result<(), AllocError>
    requires { AreLabels labels.now }
    ensures { OnOk result (string_bytes text.new ≡ string_bytes text.old ++ spec.spot_label (packages_of labels.now) labels.now.sides (spot_text spot.entry)) }
{
    let package = package_at(labels.packages, spot.package);
    push_label(alloc, text, labels, spot, package)
}

/// Returns the label of `spot`.
pub(crate) fn label_text(
    alloc: Global,
    labels: &Labels<'_, '_>,
    spot: Spot<'_>,
) -> Result<String, AllocError>
    requires { AreLabels labels.now }
    ensures { IfOk result (λ text. string_bytes text ≡ spec.spot_label (packages_of labels.now) labels.now.sides (spot_text spot.entry)) }
{
    let mut text = String::new(alloc);
    push_spot(alloc, &mut text, labels, spot)?;
    Ok(text)
}

/// Returns the label of each of `spots`.
fn label_texts(
    alloc: Global,
    labels: &Labels<'_, '_>,
    spots: &[Spot<'_>],
) -> Result<Vec<String>, AllocError>
    requires { AreLabels labels.now }
    ensures { IfOk result (λ texts. map string_bytes texts.items ≡ map (spec.spot_label (packages_of labels.now) labels.now.sides) (map spot_text spots.now)) }
{
    let mut texts = Vec::with_capacity(alloc, spots.len())?;
    for spot in spots {
        texts.push(label_text(alloc, labels, *spot)?)?;
    }
    Ok(texts)
}

/// Returns the label of `spot`, which is in `workspace`: its package, `PACKAGE/FEATURE` or `PACKAGE/dep:NAME`. If `sides` is true,
/// ` (host)` follows a spot on the host side.
pub fn spot_label(
    alloc: Global,
    workspace: &Workspace<'_>,
    sides: bool,
    spot: Spot<'_>,
) -> Result<String, AllocError>
    ensures { IfOk result (λ text. string_bytes text ≡ spec.spot_label (workspace_text workspace.now).packages sides (spot_text spot.entry)) }
{
    let versions = names_of(alloc, workspace.packages())?;
    let labels = labels_of(alloc, workspace.packages(), &versions, sides)?;
    label_text(alloc, &labels, spot)
}

/// Returns the label of each of `spots`, which are in `workspace`, as `spot_label` does.
pub fn spot_labels(
    alloc: Global,
    workspace: &Workspace<'_>,
    sides: bool,
    spots: &[Spot<'_>],
) -> Result<Vec<String>, AllocError>
    ensures { IfOk result (λ texts. map string_bytes texts.items ≡ map (spec.spot_label (workspace_text workspace.now).packages sides) (map spot_text spots.now)) }
{
    let versions = names_of(alloc, workspace.packages())?;
    let labels = labels_of(alloc, workspace.packages(), &versions, sides)?;
    label_texts(alloc, &labels, spots)
}
