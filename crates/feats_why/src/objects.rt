//! An explanation as JSON objects.
ghost use Rattle.std.specs.Prelude.{◌≡◌, ◌++◌, ◌∷◌, [], IfOk, OnOk, map, option_map};
ghost use Rattle.cargo_workspaces.specs.Views.{package_text, texts};
ghost use Rattle.cargo_workspaces.specs.WorkspaceView.{workspace_text};
ghost use Rattle.feature_labels.specs.Names.{label_of};
ghost use Rattle.json.specs.Print.{print};
ghost use Rattle.json.specs.Token.{key, string};
ghost use Rattle.feats_lines.specs.Objects.{member};
ghost use Rattle.feats_why.specs.Objects as spec;
ghost use Rattle.feats_why.specs.Settings.{settings_text};
ghost use Rattle.plan_whys.specs.StepViews.{reason_text, spot_text, why_text};

use crate::platforms::platforms_of;
use crate::relations::{Relation, is_command, is_shown, relation_of};
use crate::settings::WhySettings;
use cargo_workspaces::{Package, Workspace};
use feature_labels::FeatureLabel;
use json::Writer;
use plan_rows::{Platform, Side};
use plan_whys::{Spot, WhyReason, WhyStep};
use std::alloc::{AllocError, Global};

/// Writes a member whose value is a string.
fn write_member(writer: &mut Writer, name: &str, value: &str) -> Result<(), AllocError>
    ensures { OnOk result (spec.Appends writer.old writer.new (member name.now value.now)) }
{
    writer.key(name)?;
    writer.string(value)
}

/// Writes a member whose value is a string, or null.
fn write_optional(writer: &mut Writer, name: &str, value: Option<&str>) -> Result<(), AllocError>
    ensures { OnOk result (spec.Appends writer.old writer.new (key name.now ∷ spec.text_or_null (option_map (λ t. t.now) value.entry) ∷ [])) }
{
    writer.key(name)?;
    match value {
        Some(text) => writer.string(text),
        None => writer.null(),
    }
}

/// Returns the id of package `ix`; nothing, if there is no such package.
fn id_at<'p>(packages: &'p [Package<'_>], ix: usize) -> &'p str
    ensures { result.now ≡ spec.id_at (map package_text packages.now) ix }
{
    match packages.get(ix) {
        Some(package) => package.id,
        None => "",
    }
}

/// Returns the name of the feature with this label, if it is one.
fn feature_name(label: FeatureLabel<'_>) -> Option<&str>
    ensures { option_map (λ t. t.now) result ≡ spec.feature_name (label_of label.entry) }
{
    match label {
        FeatureLabel::Named(name) => Some(name),
        FeatureLabel::Base | FeatureLabel::OptionalDependency(_) => None,
    }
}

/// Returns the name of the optional dependency with this label, if it is one.
fn dependency_name(label: FeatureLabel<'_>) -> Option<&str>
    ensures { option_map (λ t. t.now) result ≡ spec.dependency_name (label_of label.entry) }
{
    match label {
        FeatureLabel::OptionalDependency(name) => Some(name),
        FeatureLabel::Base | FeatureLabel::Named(_) => None,
    }
}

/// Returns the word for `side`.
fn side_word(side: Side) -> &'static str
    ensures { result.now ≡ spec.side_word side }
{
    match side {
        Side::Target => "target",
        Side::Host => "host",
    }
}

/// Writes the members of `spot`.
pub(crate) fn write_spot(
    writer: &mut Writer,
    packages: &[Package<'_>],
    spot: Spot<'_>,
) -> Result<(), AllocError>
    ensures { OnOk result (spec.Appends writer.old writer.new (spec.spot_members (map package_text packages.now) (spot_text spot.entry))) }
{
    write_member(writer, "package", id_at(packages, spot.package))?;
    write_optional(writer, "feature", feature_name(spot.label))?;
    write_optional(writer, "dependency", dependency_name(spot.label))?;
    write_member(writer, "side", side_word(spot.side))
}

/// Writes the object of `spot`, or null.
fn write_spot_or_null(
    writer: &mut Writer,
    packages: &[Package<'_>],
    spot: Option<Spot<'_>>,
) -> Result<(), AllocError>
    ensures { OnOk result (spec.Appends writer.old writer.new (spec.spot_or_null (map package_text packages.now) (option_map spot_text spot.entry))) }
{
    match spot {
        Some(spot) => {
            writer.begin_object()?;
            write_spot(writer, packages, spot)?;
            writer.end_object()
        }
        None => writer.null(),
    }
}

/// Writes a member whose value is the object of `spot`, or null.
fn write_spot_member(
    writer: &mut Writer,
    packages: &[Package<'_>],
    name: &str,
    spot: Option<Spot<'_>>,
) -> Result<(), AllocError>
    ensures { OnOk result (spec.Appends writer.old writer.new (key name.now ∷ spec.spot_or_null (map package_text packages.now) (option_map spot_text spot.entry))) }
{
    writer.key(name)?;
    write_spot_or_null(writer, packages, spot)
}

/// Returns the word for `relation`.
fn reason_word(relation: Relation) -> &'static str
    ensures { result.now ≡ spec.reason_word relation }
{
    match relation {
        Relation::Selected | Relation::Asked => "selected",
        Relation::Default => "default",
        Relation::TurnsOn | Relation::Needs => "turns-on",
        Relation::Depends => "depends",
        Relation::Asks => "asks",
    }
}

/// Returns the spot from which `reason` leads, if that isn't the selection.
fn shown_start(reason: WhyReason<'_>) -> Option<Spot<'_>>
    ensures { option_map spot_text result ≡ spec.shown_start (reason_text reason.entry) }
{
    match reason {
        WhyReason::From { start, .. } if !is_command(start) => Some(start),
        WhyReason::From { .. } | WhyReason::Selected => None,
    }
}

/// Returns the gate of `reason`, if it has one.
fn shown_gate(reason: WhyReason<'_>) -> Option<Spot<'_>>
    ensures { option_map spot_text result ≡ spec.shown_gate (reason_text reason.entry) }
{
    match reason {
        WhyReason::From { gate, .. } => gate,
        WhyReason::Selected => None,
    }
}

/// Writes each of `platforms` as a string.
fn write_texts(writer: &mut Writer, platforms: &[&str]) -> Result<(), AllocError>
    ensures { OnOk result (spec.Appends writer.old writer.new (map string (texts platforms.now))) }
{
    for platform in platforms {
        writer.string(platform)?;
    }
    Ok(())
}

/// Writes the member with the platforms.
fn write_platforms(writer: &mut Writer, platforms: &[&str]) -> Result<(), AllocError>
    ensures { OnOk result (spec.Appends writer.old writer.new (spec.platform_tokens (texts platforms.now))) }
{
    writer.key("platforms")?;
    writer.begin_array()?;
    write_texts(writer, platforms)?;
    writer.end_array()
}

/// Returns the platforms for which `reason` leads to `at`.
pub(crate) fn reason_platforms<'v, P: Platform>(
    alloc: Global,
    settings: &WhySettings<'_, P>,
    packages: &[Package<'v>],
    at: Spot<'_>,
    reason: WhyReason<'_>,
) -> Result<Vec<&'v str>, AllocError>
    ensures { IfOk result (λ platforms. texts platforms.items ≡ spec.reason_platforms (map package_text packages.now) (settings_text P.holds settings.now) (spot_text at.entry) (reason_text reason.entry)) }
{
    match reason {
        WhyReason::From { start, .. } => platforms_of(alloc, settings, packages, start, at),
        WhyReason::Selected => Ok(Vec::new(alloc)),
    }
}

/// Writes the members of `reason`, by which `at` is on for `platforms`.
pub(crate) fn write_reason(
    writer: &mut Writer,
    packages: &[Package<'_>],
    platforms: &[&str],
    at: Spot<'_>,
    reason: WhyReason<'_>,
) -> Result<(), AllocError>
    ensures { OnOk result (spec.Appends writer.old writer.new (spec.reason_tokens (map package_text packages.now) (texts platforms.now) (spot_text at.entry) (reason_text reason.entry))) }
{
    write_member(writer, "reason", reason_word(relation_of(at, reason)))?;
    write_spot_member(writer, packages, "from", shown_start(reason))?;
    write_spot_member(writer, packages, "gate", shown_gate(reason))?;
    write_platforms(writer, platforms)
}

/// Writes the object of `step`, whose reason is for `platforms`.
fn write_object(
    writer: &mut Writer,
    packages: &[Package<'_>],
    platforms: &[&str],
    step: &WhyStep<'_>,
) -> Result<(), AllocError>
    ensures { OnOk result (spec.Appends writer.old writer.new (spec.object_tokens (map package_text packages.now) (texts platforms.now) (why_text step.now))) }
{
    writer.begin_object()?;
    write_spot(writer, packages, step.at)?;
    write_reason(writer, packages, platforms, step.at, step.reason)?;
    writer.end_object()
}

/// Writes the object of `step`.
fn write_step<P: Platform>(
    alloc: Global,
    writer: &mut Writer,
    packages: &[Package<'_>],
    settings: &WhySettings<'_, P>,
    step: &WhyStep<'_>,
) -> Result<(), AllocError>
    ensures { OnOk result (spec.Appends writer.old writer.new (spec.step_object (map package_text packages.now) (settings_text P.holds settings.now) (why_text step.now))) }
{
    let platforms = reason_platforms(alloc, settings, packages, step.at, step.reason)?;
    write_object(writer, packages, &platforms, step)
}

/// Writes the object of `step`, if the step is shown.
fn write_shown<P: Platform>(
    alloc: Global,
    writer: &mut Writer,
    packages: &[Package<'_>],
    settings: &WhySettings<'_, P>,
    step: &WhyStep<'_>,
) -> Result<(), AllocError>
    ensures { OnOk result (spec.Appends writer.old writer.new (spec.shown_object (map package_text packages.now) (settings_text P.holds settings.now) (why_text step.now))) }
{
    if is_shown(step) {
        write_step(alloc, writer, packages, settings, step)
    } else {
        Ok(())
    }
}

/// Writes an object for each of `steps` that is shown.
fn write_all<P: Platform>(
    alloc: Global,
    writer: &mut Writer,
    packages: &[Package<'_>],
    settings: &WhySettings<'_, P>,
    steps: &[WhyStep<'_>],
) -> Result<(), AllocError>
    ensures { OnOk result (spec.Appends writer.old writer.new (spec.step_objects (map package_text packages.now) (settings_text P.holds settings.now) (map why_text steps.now))) }
{
    for step in steps {
        write_shown(alloc, writer, packages, settings, step)?;
    }
    Ok(())
}

/// Writes an object for each of `steps`, which are those of an explanation in `workspace`, without brackets around them. Steps at
/// command features aren't shown.
pub fn write_steps<P: Platform>(
    alloc: Global,
    writer: &mut Writer,
    workspace: &Workspace<'_>,
    settings: &WhySettings<'_, P>,
    steps: &[WhyStep<'_>],
) -> Result<(), AllocError>
    ensures { OnOk result (spec.Appends writer.old writer.new (spec.step_objects (workspace_text workspace.now).packages (settings_text P.holds settings.now) (map why_text steps.now))) }
{
    write_all(alloc, writer, workspace.packages(), settings, steps)
}

/// Appends the object of `step`, and a line feed.
fn push_object<P: Platform>(
    alloc: Global,
    text: Vec<u8>,
    packages: &[Package<'_>],
    settings: &WhySettings<'_, P>,
    step: &WhyStep<'_>,
) -> Result<Vec<u8>, AllocError>
    ensures { IfOk result (λ new. new.items ≡ text.items ++ (print (spec.step_object (map package_text packages.now) (settings_text P.holds settings.now) (why_text step.now)) ++ 10 ∷ [])) }
{
    let mut writer = Writer::new(text);
    write_step(alloc, &mut writer, packages, settings, step)?;
    let mut text = writer.into_inner();
    text.push(b'\n')?;
    Ok(text)
}

/// Appends the line of `step`, if the step is shown.
fn push_shown<P: Platform>(
    alloc: Global,
    text: Vec<u8>,
    packages: &[Package<'_>],
    settings: &WhySettings<'_, P>,
    step: &WhyStep<'_>,
) -> Result<Vec<u8>, AllocError>
    ensures { IfOk result (λ new. new.items ≡ text.items ++ spec.object_line (map package_text packages.now) (settings_text P.holds settings.now) (why_text step.now)) }
{
    if is_shown(step) {
        push_object(alloc, text, packages, settings, step)
    } else {
        Ok(text)
    }
}

/// Returns a line for each of `steps` that is shown.
fn object_lines<P: Platform>(
    alloc: Global,
    packages: &[Package<'_>],
    settings: &WhySettings<'_, P>,
    steps: &[WhyStep<'_>],
) -> Result<Vec<u8>, AllocError>
    ensures { IfOk result (λ text. text.items ≡ spec.why_objects (map package_text packages.now) (settings_text P.holds settings.now) (map why_text steps.now)) }
{
    let mut text = Vec::new(alloc);
    for step in steps {
        text = push_shown(alloc, text, packages, settings, step)?;
    }
    Ok(text)
}

/// Returns a line with a JSON object for each of `steps`, which are those of an explanation in `workspace`. Steps at command features
/// aren't shown.
pub fn why_objects<P: Platform>(
    alloc: Global,
    workspace: &Workspace<'_>,
    settings: &WhySettings<'_, P>,
    steps: &[WhyStep<'_>],
) -> Result<Vec<u8>, AllocError>
    ensures { IfOk result (λ text. text.items ≡ spec.why_objects (workspace_text workspace.now).packages (settings_text P.holds settings.now) (map why_text steps.now)) }
{
    object_lines(alloc, workspace.packages(), settings, steps)
}
