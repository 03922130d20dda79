//! The members that name a feature.
ghost use Rattle.std.specs.Prelude.{◌≡◌, OnOk, option_map};
ghost use Rattle.cargo_workspaces.specs.WorkspaceView.{workspace_text};
ghost use Rattle.feature_labels.specs.Names.{label_of};
ghost use Rattle.feats_lines.specs.parts.Members.{Appends};
ghost use Rattle.feats_why.specs.Objects as names;
ghost use Rattle.feats_why_not.specs.Objects as spec;
ghost use Rattle.feats_why_not.specs.PartView.{part_text};

use crate::parts::OffPart;
use cargo_workspaces::Workspace;
use feats_lines::parts::{write_member, write_optional};
use feature_labels::FeatureLabel;
use json::Writer;
use plan_names::wider::widenings::Widening;
use std::alloc::AllocError;

/// Returns the id of package `ix`; nothing, if there is no such package.
fn id_at<'w>(workspace: &'w Workspace<'_>, ix: usize) -> &'w str
    ensures { result.now ≡ names.id_at (workspace_text workspace.now).packages ix }
{
    match workspace.packages().get(ix) {
        Some(package) => package.id,
        None => "",
    }
}

/// Returns the name of the feature that `label` is.
fn feature_name<'l>(label: FeatureLabel<'l>) -> Option<&'l str>
    ensures { option_map (λ t. t.now) result ≡ names.feature_name (label_of label.entry) }
{
    match label {
        FeatureLabel::Named(name) => Some(name),
        FeatureLabel::Base | FeatureLabel::OptionalDependency(_) => None,
    }
}

/// Returns the name of the optional dependency that `label` is.
fn dependency_name<'l>(label: FeatureLabel<'l>) -> Option<&'l str>
    ensures { option_map (λ t. t.now) result ≡ names.dependency_name (label_of label.entry) }
{
    match label {
        FeatureLabel::OptionalDependency(name) => Some(name),
        FeatureLabel::Base | FeatureLabel::Named(_) => None,
    }
}

/// Writes the members that name `part`.
fn write_part(
    writer: &mut Writer,
    workspace: &Workspace<'_>,
    part: OffPart<'_>,
) -> Result<(), AllocError>
    ensures { OnOk result (Appends writer.old writer.new (spec.part_tokens (workspace_text workspace.now).packages (part_text part.entry))) }
{
    write_member(writer, "package", id_at(workspace, part.package))?;
    write_optional(writer, "feature", feature_name(part.label))?;
    write_optional(writer, "dependency", dependency_name(part.label))
}

/// Returns the word for `widening`.
fn widening_word(widening: Widening) -> &'static str
    ensures { result.now ≡ spec.widening_word widening }
{
    match widening {
        Widening::AllFeatures => "all-features",
        Widening::AllMembers => "all-members",
        Widening::Tests => "tests",
        Widening::EveryPlatform => "every-platform",
        Widening::Together => "together",
    }
}

/// Writes the members that begin the object about `part` and `widening`.
pub(crate) fn write_head(
    writer: &mut Writer,
    workspace: &Workspace<'_>,
    part: OffPart<'_>,
    widening: Widening,
) -> Result<(), AllocError>
    ensures { OnOk result (Appends writer.old writer.new (spec.head_tokens (workspace_text workspace.now).packages (part_text part.entry) widening)) }
{
    write_part(writer, workspace, part)?;
    write_member(writer, "widening", widening_word(widening))
}
