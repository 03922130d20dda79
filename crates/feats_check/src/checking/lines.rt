//! Broken rules as text.
ghost use Rattle.std.specs.Prelude.{◌≡◌, ◌++◌, ◌∷◌, IfOk, OnOk, flat_map, map, string_bytes};
ghost use Rattle.cargo_plans.specs.WordsView.{words_text};
ghost use Rattle.cargo_workspaces.specs.WorkspaceView.{workspace_text};
ghost use Rattle.plan_rows.specs.platforms.HeldSpecs.{holds_on};
ghost use Rattle.plan_whys.specs.StepViews.{found_text, why_text};
ghost use Rattle.feats_policies.specs.Views.{rule_text};
ghost use Rattle.feats_policies.specs.checks.Views.{verdict_text};
ghost use Rattle.feats_why.specs.Views.{steps_text};
ghost use Rattle.feats_check.specs.checking.Whys as spec;
ghost use Rattle.feats_check.specs.checking.inner.RuleTexts.{gapped, steps_or_none, texts_by};
ghost use Rattle.feats_check.specs.texts.Lines.{verdict_lines};
ghost use Rattle.feats_words.specs.declared.command_arguments.Format.TheVariants as format;

use crate::checking::parted::part_at;
use crate::checking::planned::Planned;
use crate::texts::push_verdict;
use cargo_plans::PlanWords;
use cargo_workspaces::Workspace;
use feats_policies::Rule;
use feats_policies::checks::{Judged, Verdict};
use feats_why::{each_why_lines, settings_of};
use plan_rows::platforms::HeldSpecs;
use plan_whys::WhyStep;
use std::alloc::{AllocError, Global};

/// Returns the steps of `found`; an empty list if no steps were found.
fn steps_found<'t, 'p>(found: &'t Option<Vec<WhyStep<'p>>>) -> &'t [WhyStep<'p>]
    ensures { map why_text result.now ≡ steps_or_none (found_text found.now) }
{
    match found {
        Some(steps) => steps.as_slice(),
        None => &[],
    }
}

/// Returns the steps of each of `founds`.
fn each_found<'t, 'p>(
    alloc: Global,
    founds: &'t [Option<Vec<WhyStep<'p>>>],
) -> Result<Vec<&'t [WhyStep<'p>]>, AllocError>
    ensures { IfOk result (λ lists. map steps_text lists.items ≡ map steps_or_none (map found_text founds.now)) }
{
    let mut lists = Vec::with_capacity(alloc, founds.len())?;
    for found in founds {
        lists.push(steps_found(found))?;
    }
    Ok(lists)
}

/// Returns the lines of each of `founds`; none if no steps were found.
fn lines_of_founds(
    alloc: Global,
    workspace: &Workspace<'_>,
    words: &PlanWords<'_, '_, HeldSpecs<'_>>,
    founds: &[Option<Vec<WhyStep<'_>>>],
) -> Result<Vec<String>, AllocError>
    ensures { IfOk result (λ lines. map string_bytes lines.items ≡ map (spec.found_lines (workspace_text workspace.now).packages (words_text holds_on words.now)) (map found_text founds.now)) }
{
    let lists = each_found(alloc, founds)?;
    each_why_lines(alloc, workspace, &settings_of(words), &lists)
}

/// Appends each of `others` after an empty line.
fn push_others(text: &mut Vec<u8>, others: &[String]) -> Result<(), AllocError>
    ensures { OnOk result (text.new.items ≡ text.old.items ++ flat_map (λ t. 10 ∷ t) (map string_bytes others.now)) }
{
    for lines in others {
        text.push(b'\n')?;
        text.extend_from_slice(lines.as_bytes())?;
    }
    Ok(())
}

/// Returns the texts of `whys`, with an empty line between two of them.
fn lines_of(alloc: Global, whys: &[String]) -> Result<Vec<u8>, AllocError>
    ensures { IfOk result (λ text. text.items ≡ gapped (map string_bytes whys.now)) }
{
    let mut text = Vec::new(alloc);
    if let [first, others @ ..] = whys {
        text.extend_from_slice(first.as_bytes())?;
        push_others(&mut text, others)?;
    }
    Ok(text)
}

/// Appends the lines about the rule `rule` of `file`, which is judged in `judged`, and `whys`, which explain what breaks it.
fn push_rule(
    alloc: Global,
    text: &mut Vec<u8>,
    file: &str,
    judged: Judged,
    rule: Rule<'_>,
    whys: &[String],
) -> Result<(), AllocError>
    ensures { OnOk result (text.new.items ≡ text.old.items ++ verdict_lines file.now judged (rule_text rule.entry) (gapped (map string_bytes whys.now))) }
{
    let lines = lines_of(alloc, whys)?;
    push_verdict(alloc, text, file, judged, rule, &lines)
}

/// Appends the lines about the rules of `verdicts`, which are judged in `judged`. `whys` explain their spots, in their order.
fn push_rules(
    alloc: Global,
    text: &mut Vec<u8>,
    file: &str,
    judged: Judged,
    verdicts: &[Verdict<'_>],
    whys: &[String],
) -> Result<(), AllocError>
    ensures { OnOk result (text.new.items ≡ text.old.items ++ texts_by (λ r own. verdict_lines file.now judged r (gapped own)) (map verdict_text verdicts.now) (map string_bytes whys.now)) }
{
    let mut from = 0;
    for verdict in verdicts {
        let (own, after) = part_at(whys, from, verdict.spots.len());
        push_rule(alloc, text, file, judged, verdict.rule, own)?;
        from = after;
    }
    Ok(())
}

/// Returns the lines about the rules of `verdicts`, which break the plan of `planned`, one after the other. `founds` explain their spots, in
/// their order.
pub(crate) fn rules_lines(
    alloc: Global,
    file: &str,
    workspace: &Workspace<'_>,
    planned: Planned<'_, '_, '_, '_, '_>,
    verdicts: &[Verdict<'_>],
    founds: &[Option<Vec<WhyStep<'_>>>],
) -> Result<Vec<u8>, AllocError>
    ensures { IfOk result (λ text. text.items ≡ texts_by (spec.text_by format.Text file.now planned.entry.judged (workspace_text workspace.now).packages (words_text holds_on planned.entry.words.now)) (map verdict_text verdicts.now) (map found_text founds.now)) }
{
    let whys = lines_of_founds(alloc, workspace, planned.words, founds)?;
    let mut text = Vec::new(alloc);
    push_rules(alloc, &mut text, file, planned.judged, verdicts, &whys)?;
    Ok(text)
}
