//! Broken rules as JSON objects.
ghost use Rattle.std.specs.Prelude.{◌≡◌, ◌++◌, ◌∷◌, [], IfOk, OnOk, flat_map, map};
ghost use Rattle.cargo_plans.specs.WordsView.{words_text};
ghost use Rattle.cargo_workspaces.specs.WorkspaceView.{workspace_text};
ghost use Rattle.json.specs.Token.{begin_object};
ghost use Rattle.feats_lines.specs.parts.Members.{Appends, object_line};
ghost use Rattle.plan_rows.specs.platforms.HeldSpecs.{holds_on};
ghost use Rattle.plan_whys.specs.StepViews.{found_text, why_text};
ghost use Rattle.feats_policies.specs.Views.{rule_text};
ghost use Rattle.feats_policies.specs.checks.Views.{verdict_text};
ghost use Rattle.feats_words.specs.declared.command_arguments.Format.TheVariants as format;
ghost use Rattle.feats_check.specs.checking.Whys as spec;
ghost use Rattle.feats_check.specs.checking.inner.RuleTexts.{texts_by};
ghost use Rattle.feats_check.specs.texts.Objects.{rule_members};

use crate::checking::parted::part_at;
use crate::checking::planned::Planned;
use crate::texts::write_rule;
use cargo_plans::PlanWords;
use cargo_workspaces::Workspace;
use feats_lines::parts::{begin_line, end_line};
use feats_policies::Rule;
use feats_policies::checks::Verdict;
use feats_why::{settings_of, write_steps};
use json::Writer;
use plan_rows::platforms::HeldSpecs;
use plan_whys::WhyStep;
use std::alloc::{AllocError, Global};

/// Writes the objects of `steps`.
fn write_objects(
    alloc: Global,
    writer: &mut Writer,
    workspace: &Workspace<'_>,
    words: &PlanWords<'_, '_, HeldSpecs<'_>>,
    steps: &[WhyStep<'_>],
) -> Result<(), AllocError>
    ensures { OnOk result (Appends writer.old writer.new (spec.steps_tokens (workspace_text workspace.now).packages (words_text holds_on words.now) (map why_text steps.now))) }
{
    write_steps(alloc, writer, workspace, &settings_of(words), steps)
}

/// Writes the array of the objects of `steps`.
fn write_array(
    alloc: Global,
    writer: &mut Writer,
    workspace: &Workspace<'_>,
    words: &PlanWords<'_, '_, HeldSpecs<'_>>,
    steps: &[WhyStep<'_>],
) -> Result<(), AllocError>
    ensures { OnOk result (Appends writer.old writer.new (spec.steps_array (workspace_text workspace.now).packages (words_text holds_on words.now) (map why_text steps.now))) }
{
    writer.begin_array()?;
    write_objects(alloc, writer, workspace, words, steps)?;
    writer.end_array()
}

/// Writes the array of `found`, or nothing if no steps were found.
fn write_found(
    alloc: Global,
    writer: &mut Writer,
    workspace: &Workspace<'_>,
    words: &PlanWords<'_, '_, HeldSpecs<'_>>,
    found: &Option<Vec<WhyStep<'_>>>,
) -> Result<(), AllocError>
    ensures { OnOk result (Appends writer.old writer.new (spec.found_array (workspace_text workspace.now).packages (words_text holds_on words.now) (found_text found.now))) }
{
    match found {
        Some(steps) => write_array(alloc, writer, workspace, words, steps),
        None => Ok(()),
    }
}

/// Writes the array of each of `founds`.
fn write_founds(
    alloc: Global,
    writer: &mut Writer,
    workspace: &Workspace<'_>,
    words: &PlanWords<'_, '_, HeldSpecs<'_>>,
    founds: &[Option<Vec<WhyStep<'_>>>],
) -> Result<(), AllocError>
    ensures { OnOk result (Appends writer.old writer.new (flat_map (spec.found_array (workspace_text workspace.now).packages (words_text holds_on words.now)) (map found_text founds.now))) }
{
    for found in founds {
        write_found(alloc, writer, workspace, words, found)?;
    }
    Ok(())
}

/// Writes the member `whys`, with an array for each of `founds`.
fn write_whys(
    alloc: Global,
    writer: &mut Writer,
    workspace: &Workspace<'_>,
    words: &PlanWords<'_, '_, HeldSpecs<'_>>,
    founds: &[Option<Vec<WhyStep<'_>>>],
) -> Result<(), AllocError>
    ensures { OnOk result (Appends writer.old writer.new (spec.whys_member (workspace_text workspace.now).packages (words_text holds_on words.now) (map found_text founds.now))) }
{
    writer.key("whys")?;
    writer.begin_array()?;
    write_founds(alloc, writer, workspace, words, founds)?;
    writer.end_array()
}

/// Returns the line with the object of the rule `rule`, which the plan of `planned` breaks, and with `founds`, which explain what breaks it.
fn rule_object(
    alloc: Global,
    workspace: &Workspace<'_>,
    planned: Planned<'_, '_, '_, '_, '_>,
    rule: Rule<'_>,
    founds: &[Option<Vec<WhyStep<'_>>>],
) -> Result<Vec<u8>, AllocError>
    ensures { IfOk result (λ line. line.items ≡ object_line (begin_object ∷ (rule_members planned.entry.judged (rule_text rule.entry)
        ++ spec.whys_member (workspace_text workspace.now).packages (words_text holds_on planned.entry.words.now) (map found_text founds.now)))) }
{
    let mut writer = begin_line(Vec::new(alloc))?;
    write_rule(&mut writer, planned.judged, rule)?;
    write_whys(alloc, &mut writer, workspace, planned.words, founds)?;
    end_line(writer)
}

/// Appends the line with the object of the rule `rule`, as `rule_object` returns it.
fn push_rule(
    alloc: Global,
    text: &mut Vec<u8>,
    workspace: &Workspace<'_>,
    planned: Planned<'_, '_, '_, '_, '_>,
    rule: Rule<'_>,
    founds: &[Option<Vec<WhyStep<'_>>>],
) -> Result<(), AllocError>
    ensures { OnOk result (text.new.items ≡ text.old.items ++ spec.text_by format.Json [] planned.entry.judged (workspace_text workspace.now).packages (words_text holds_on planned.entry.words.now) (rule_text rule.entry) (map found_text founds.now)) }
{
    let line = rule_object(alloc, workspace, planned, rule, founds)?;
    text.extend_from_slice(&line)
}

/// Returns the lines with the objects of the rules of `verdicts`, which break the plan of `planned`. `founds` explain their spots, in their
/// order.
pub(crate) fn rules_objects(
    alloc: Global,
    workspace: &Workspace<'_>,
    planned: Planned<'_, '_, '_, '_, '_>,
    verdicts: &[Verdict<'_>],
    founds: &[Option<Vec<WhyStep<'_>>>],
) -> Result<Vec<u8>, AllocError>
    ensures { IfOk result (λ text. text.items ≡ texts_by (spec.text_by format.Json [] planned.entry.judged (workspace_text workspace.now).packages (words_text holds_on planned.entry.words.now)) (map verdict_text verdicts.now) (map found_text founds.now)) }
{
    let mut text = Vec::new(alloc);
    let mut from = 0;
    for verdict in verdicts {
        let (own, after) = part_at(founds, from, verdict.spots.len());
        push_rule(alloc, &mut text, workspace, planned, verdict.rule, own)?;
        from = after;
    }
    Ok(text)
}
