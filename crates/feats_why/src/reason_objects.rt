//! An explanation with every direct reason, as JSON objects.
ghost use Rattle.std.specs.Prelude.{◌≡◌, ◌++◌, ◌∷◌, [], IfOk, OnOk, flat_map, map};
ghost use Rattle.cargo_workspaces.specs.Views.{package_text};
ghost use Rattle.cargo_workspaces.specs.WorkspaceView.{workspace_text};
ghost use Rattle.json.specs.Print.{print};
ghost use Rattle.feats_why.specs.Objects.{Appends};
ghost use Rattle.feats_why.specs.ReasonedObjects as spec;
ghost use Rattle.feats_why.specs.Settings.{settings_text};
ghost use Rattle.plan_whys.specs.StepViews.{reason_text, reasoned_text, spot_text, why_text};

use crate::objects::{reason_platforms, write_reason, write_spot};
use crate::relations::is_shown;
use crate::settings::WhySettings;
use cargo_workspaces::{Package, Workspace};
use json::Writer;
use plan_rows::Platform;
use plan_whys::{ReasonedStep, Spot, WhyReason, WhyStep};
use std::alloc::{AllocError, Global};

/// Writes the members of `reason`, by which `at` is on.
fn write_reason_members<P: Platform>(
    alloc: Global,
    writer: &mut Writer,
    packages: &[Package<'_>],
    settings: &WhySettings<'_, P>,
    at: Spot<'_>,
    reason: WhyReason<'_>,
) -> Result<(), AllocError>
    ensures { OnOk result (Appends writer.old writer.new (spec.reason_members (map package_text packages.now) (settings_text P.holds settings.now) (spot_text at.entry) (reason_text reason.entry))) }
{
    let platforms = reason_platforms(alloc, settings, packages, at, reason)?;
    write_reason(writer, packages, &platforms, at, reason)
}

/// Writes the object of `reason`, by which `at` is on.
fn write_reason_object<P: Platform>(
    alloc: Global,
    writer: &mut Writer,
    packages: &[Package<'_>],
    settings: &WhySettings<'_, P>,
    at: Spot<'_>,
    reason: WhyReason<'_>,
) -> Result<(), AllocError>
    ensures { OnOk result (Appends writer.old writer.new (spec.reason_object (map package_text packages.now) (settings_text P.holds settings.now) (spot_text at.entry) (reason_text reason.entry))) }
{
    writer.begin_object()?;
    write_reason_members(alloc, writer, packages, settings, at, reason)?;
    writer.end_object()
}

/// Writes the object of each of `reasons`, by which `at` is on.
fn write_reason_objects<P: Platform>(
    alloc: Global,
    writer: &mut Writer,
    packages: &[Package<'_>],
    settings: &WhySettings<'_, P>,
    at: Spot<'_>,
    reasons: &[WhyReason<'_>],
) -> Result<(), AllocError>
    ensures { OnOk result (Appends writer.old writer.new (flat_map (spec.reason_object (map package_text packages.now) (settings_text P.holds settings.now) (spot_text at.entry)) (map reason_text reasons.now))) }
{
    for reason in reasons {
        write_reason_object(alloc, writer, packages, settings, at, *reason)?;
    }
    Ok(())
}

/// Writes the member with `reasons`, by which `at` is on.
fn write_reasons<P: Platform>(
    alloc: Global,
    writer: &mut Writer,
    packages: &[Package<'_>],
    settings: &WhySettings<'_, P>,
    at: Spot<'_>,
    reasons: &[WhyReason<'_>],
) -> Result<(), AllocError>
    ensures { OnOk result (Appends writer.old writer.new (spec.reasons_member (map package_text packages.now) (settings_text P.holds settings.now) (spot_text at.entry) (map reason_text reasons.now))) }
{
    writer.key("reasons")?;
    writer.begin_array()?;
    write_reason_objects(alloc, writer, packages, settings, at, reasons)?;
    writer.end_array()
}

/// Writes the members of `step`.
fn write_step_members<P: Platform>(
    alloc: Global,
    writer: &mut Writer,
    packages: &[Package<'_>],
    settings: &WhySettings<'_, P>,
    step: &WhyStep<'_>,
) -> Result<(), AllocError>
    ensures { OnOk result (Appends writer.old writer.new (spec.step_members (map package_text packages.now) (settings_text P.holds settings.now) (why_text step.now))) }
{
    write_spot(writer, packages, step.at)?;
    write_reason_members(alloc, writer, packages, settings, step.at, step.reason)
}

/// Writes the object of `reasoned`.
fn write_reasoned<P: Platform>(
    alloc: Global,
    writer: &mut Writer,
    packages: &[Package<'_>],
    settings: &WhySettings<'_, P>,
    reasoned: &ReasonedStep<'_>,
) -> Result<(), AllocError>
    ensures { OnOk result (Appends writer.old writer.new (spec.reasoned_object (map package_text packages.now) (settings_text P.holds settings.now) (reasoned_text reasoned.now))) }
{
    let at = reasoned.step.at;
    writer.begin_object()?;
    write_step_members(alloc, writer, packages, settings, &reasoned.step)?;
    write_reasons(alloc, writer, packages, settings, at, &reasoned.reasons)?;
    writer.end_object()
}

/// Appends the object of `reasoned`, and a line feed.
fn push_reasoned<P: Platform>(
    alloc: Global,
    text: Vec<u8>,
    packages: &[Package<'_>],
    settings: &WhySettings<'_, P>,
    reasoned: &ReasonedStep<'_>,
) -> Result<Vec<u8>, AllocError>
    ensures { IfOk result (λ new. new.items ≡ text.items ++ (print (spec.reasoned_object (map package_text packages.now) (settings_text P.holds settings.now) (reasoned_text reasoned.now)) ++ 10 ∷ [])) }
{
    let mut writer = Writer::new(text);
    write_reasoned(alloc, &mut writer, packages, settings, reasoned)?;
    let mut text = writer.into_inner();
    text.push(b'\n')?;
    Ok(text)
}

/// Appends the line of `reasoned`, if the step is shown.
fn push_shown<P: Platform>(
    alloc: Global,
    text: Vec<u8>,
    packages: &[Package<'_>],
    settings: &WhySettings<'_, P>,
    reasoned: &ReasonedStep<'_>,
) -> Result<Vec<u8>, AllocError>
    ensures { IfOk result (λ new. new.items ≡ text.items ++ spec.reasoned_line (map package_text packages.now) (settings_text P.holds settings.now) (reasoned_text reasoned.now)) }
{
    if is_shown(&reasoned.step) {
        push_reasoned(alloc, text, packages, settings, reasoned)
    } else {
        Ok(text)
    }
}

/// Returns a line for each of `steps` that is shown.
fn reasoned_lines<P: Platform>(
    alloc: Global,
    packages: &[Package<'_>],
    settings: &WhySettings<'_, P>,
    steps: &[ReasonedStep<'_>],
) -> Result<Vec<u8>, AllocError>
    ensures { IfOk result (λ text. text.items ≡ spec.reasoned_objects (map package_text packages.now) (settings_text P.holds settings.now) (map reasoned_text steps.now)) }
{
    let mut text = Vec::new(alloc);
    for step in steps {
        text = push_shown(alloc, text, packages, settings, step)?;
    }
    Ok(text)
}

/// Returns the lines of `why_objects` for the steps, where each object has a further member, `reasons`: an object for each direct reason of
/// the step's spot.
pub fn reasoned_objects<P: Platform>(
    alloc: Global,
    workspace: &Workspace<'_>,
    settings: &WhySettings<'_, P>,
    steps: &[ReasonedStep<'_>],
) -> Result<Vec<u8>, AllocError>
    ensures { IfOk result (λ text. text.items ≡ spec.reasoned_objects (workspace_text workspace.now).packages (settings_text P.holds settings.now) (map reasoned_text steps.now)) }
{
    reasoned_lines(alloc, workspace.packages(), settings, steps)
}
