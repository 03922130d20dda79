//! The lines about what is on, and isn't built.
ghost use Rattle.std.specs.Prelude.{◌≡◌, ◌++◌, IfOk, OnOk, flat_map, map, string_bytes};
ghost use Rattle.cargo_workspaces.specs.WorkspaceView.{workspace_text};
ghost use Rattle.feats_why.specs.Labels.{spot_label};
ghost use Rattle.feats_why.specs.Unbuilt as spec;
ghost use Rattle.feats_why.specs.inner.Labelled.{AreLabels, packages_of};

use crate::labels::{Labels, labels_of, push_spot};
use cargo_workspaces::Workspace;
use feats_lines::names_of;
use feature_labels::FeatureLabel;
use plan_rows::Side;
use plan_whys::Spot;
use std::alloc::{AllocError, Global};

/// A spot that is on, whose package isn't built there.
#[derive(Clone, Copy)]
pub struct UnbuiltSpot<'v> {
    pub spot: Spot<'v>,
    /// The package that lacks the build script for which it declares the spot's package. None if that isn't the reason.
    pub lacking: Option<usize>,
}

/// Appends the label of package `package` on `side`.
fn push_base(
    alloc: Global,
    text: &mut String,
    labels: &Labels<'_, '_>,
    side: Side,
    package: usize,
) -> Result<(), AllocError>
    requires { AreLabels labels.now }
    ensures { OnOk result (string_bytes text.new ≡ string_bytes text.old ++ spot_label (packages_of labels.now) labels.now.sides (spec.base_at side «package»)) }
{
    let spot = Spot {
        side,
        package,
        label: FeatureLabel::Base,
    };
    push_spot(alloc, text, labels, spot)
}

/// Appends which package lacks a build script, if there is one.
fn push_lacking(
    alloc: Global,
    text: &mut String,
    labels: &Labels<'_, '_>,
    lacking: Option<usize>,
) -> Result<(), AllocError>
    requires { AreLabels labels.now }
    ensures { OnOk result (string_bytes text.new ≡ string_bytes text.old ++ spec.lacking_text (packages_of labels.now) labels.now.sides lacking) }
{
    match lacking {
        Some(package) => {
            text.push_str(": ")?;
            push_base(alloc, text, labels, Side::Target, package)?;
            text.push_str(" has no build script")?;
            Ok(())
        }
        None => Ok(()),
    }
}

/// Appends the message about `unbuilt`: its package isn't built, and why if it is known.
fn push_message(
    alloc: Global,
    text: &mut String,
    labels: &Labels<'_, '_>,
    unbuilt: UnbuiltSpot<'_>,
) -> Result<(), AllocError>
    requires { AreLabels labels.now }
    ensures { OnOk result (string_bytes text.new ≡ string_bytes text.old ++ spec.unbuilt_message (packages_of labels.now) labels.now.sides (spec.unbuilt_text unbuilt.entry)) }
{
    let spot = unbuilt.spot;
    text.push_str("asked for, but ")?;
    push_base(alloc, text, labels, spot.side, spot.package)?;
    text.push_str(" isn't built")?;
    push_lacking(alloc, text, labels, unbuilt.lacking)
}

/// Appends the line of `unbuilt`.
fn push_unbuilt(
    alloc: Global,
    text: &mut String,
    labels: &Labels<'_, '_>,
    unbuilt: UnbuiltSpot<'_>,
) -> Result<(), AllocError>
    requires { AreLabels labels.now }
    ensures { OnOk result (string_bytes text.new ≡ string_bytes text.old ++ spec.unbuilt_line (packages_of labels.now) labels.now.sides (spec.unbuilt_text unbuilt.entry)) }
{
    push_spot(alloc, text, labels, unbuilt.spot)?;
    text.push_str(" is ")?;
    push_message(alloc, text, labels, unbuilt)?;
    text.push_str("\n")?;
    Ok(())
}

/// Appends the lines of `list`.
fn push_all(
    alloc: Global,
    text: &mut String,
    labels: &Labels<'_, '_>,
    list: &[UnbuiltSpot<'_>],
) -> Result<(), AllocError>
    requires { AreLabels labels.now }
    ensures { OnOk result (string_bytes text.new ≡ string_bytes text.old ++ flat_map (spec.unbuilt_line (packages_of labels.now) labels.now.sides) (map spec.unbuilt_text list.now)) }
{
    for unbuilt in list {
        push_unbuilt(alloc, text, labels, *unbuilt)?;
    }
    Ok(())
}

/// Returns a line for each of `list`, which are spots in `workspace`: that it is asked for and its package isn't built, and why if it is
/// known. If `sides` is true, ` (host)` follows a spot on the host side.
pub fn unbuilt_lines(
    alloc: Global,
    workspace: &Workspace<'_>,
    sides: bool,
    list: &[UnbuiltSpot<'_>],
) -> Result<String, AllocError>
    ensures { IfOk result (λ text. string_bytes text ≡ spec.unbuilt_lines (workspace_text workspace.now).packages sides (map spec.unbuilt_text list.now)) }
{
    let versions = names_of(alloc, workspace.packages())?;
    let labels = labels_of(alloc, workspace.packages(), &versions, sides)?;
    let mut text = String::new(alloc);
    push_all(alloc, &mut text, &labels, list)?;
    Ok(text)
}

/// Returns the message about `unbuilt`, a spot in `workspace`: it is asked for and its package isn't built, and why if it is known. If
/// `sides` is true, ` (host)` follows a package on the host side.
pub fn unbuilt_message(
    alloc: Global,
    workspace: &Workspace<'_>,
    sides: bool,
    unbuilt: UnbuiltSpot<'_>,
) -> Result<String, AllocError>
    ensures { IfOk result (λ text. string_bytes text ≡ spec.unbuilt_message (workspace_text workspace.now).packages sides (spec.unbuilt_text unbuilt.entry)) }
{
    let versions = names_of(alloc, workspace.packages())?;
    let labels = labels_of(alloc, workspace.packages(), &versions, sides)?;
    let mut text = String::new(alloc);
    push_message(alloc, &mut text, &labels, unbuilt)?;
    Ok(text)
}
