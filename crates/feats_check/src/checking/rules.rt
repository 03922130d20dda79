//! The rules of a policy, one after the other.
ghost use Rattle.std.specs.Prelude.{◌≡◌, ◌++◌, ◌||◌, IfOk, IfErr, OnOk, Some, map};
ghost use Rattle.cargo_workspaces.specs.WorkspaceView.{workspace_text};
ghost use Rattle.feats_files.specs.Messages.{Says};
ghost use Rattle.feats_policies.specs.Views.{rule_text};
ghost use Rattle.feats_check.specs.checking.Broken as spec;
ghost use Rattle.feats_check.specs.checking.QuestionViews.{printed_text, question_text};
ghost use Rattle.feats_check.specs.checking.Scenes.{IsScene, judged_in, judged_widely};
ghost use Rattle.feats_check.specs.checking.inner.PlannedScenes.{AreScenes, AreWide};
ghost use Rattle.feats_check.specs.checking.inner.PlannedViews.{scene_by, scenes_by, wide_by};
ghost use Rattle.feats_check.specs.checking.inner.Rules.{AreRulesPrinted, IsFirstUnchecked, alone};

use crate::checking::broken::text_of_verdicts;
use crate::checking::planned::{Planned, Wide};
use crate::checking::question::{PolicyQuestion, PolicyText};
use crate::texts::check_refused;
use cargo_workspaces::Workspace;
use feats_files::Fault;
use feats_policies::checks::{Build, check};
use feats_policies::{Rule, RuleKind};
use std::alloc::{AllocError, Global};
use std::slice;

/// Returns the joined texts about `rules`, and whether the plan of `planned` breaks one of them.
fn printed_all(
    alloc: Global,
    asked: PolicyQuestion<'_, '_, '_, '_>,
    workspace: &Workspace<'_>,
    selected: &[usize],
    planned: Planned<'_, '_, '_, '_, '_>,
    rules: &[Rule<'_>],
) -> Result<PolicyText, Fault>
    requires { IsScene (scene_by (workspace_text workspace.now) selected.now (question_text asked) planned) }
    ensures text { IfOk result (λ printed. AreRulesPrinted (question_text asked.entry) (alone (scene_by (workspace_text workspace.now) selected.now (question_text asked.entry) planned.entry)) (map rule_text rules.now) (printed_text printed)) }
    ensures fault { IfErr result (λ fault. Says fault (IsFirstUnchecked (question_text asked.entry) (alone (scene_by (workspace_text workspace.now) selected.now (question_text asked.entry) planned.entry)) (map rule_text rules.now))) }
{
    let build = Build {
        workspace,
        selected,
        plan: planned.plan,
        split: planned.words.selection.split,
        host: asked.host,
        targets: asked.targets,
        judged: planned.judged,
    };
    match check(alloc, build, rules) {
        Ok(verdicts) => {
            let is_broken = !verdicts.is_empty();
            let text = text_of_verdicts(alloc, asked, workspace, selected, planned, &verdicts)?;
            Ok(PolicyText { text, is_broken })
        }
        Err(fault) => Err(check_refused(alloc, build, asked.file, fault)),
    }
}

/// Returns the text about `rule`, and whether the plan of `planned` breaks it.
fn printed_in(
    alloc: Global,
    asked: PolicyQuestion<'_, '_, '_, '_>,
    workspace: &Workspace<'_>,
    selected: &[usize],
    planned: Planned<'_, '_, '_, '_, '_>,
    rule: Rule<'_>,
) -> Result<PolicyText, Fault>
    requires { IsScene (scene_by (workspace_text workspace.now) selected.now (question_text asked) planned) }
    ensures text { IfOk result (λ printed. spec.IsRuleText (question_text asked.entry) (judged_in (scene_by (workspace_text workspace.now) selected.now (question_text asked.entry) planned.entry) (rule_text rule.entry)) (printed_text printed)) }
    ensures fault { IfErr result (λ fault. Says fault (spec.IsRuleRefusal (question_text asked.entry) (judged_in (scene_by (workspace_text workspace.now) selected.now (question_text asked.entry) planned.entry) (rule_text rule.entry)))) }
{
    printed_all(
        alloc,
        asked,
        workspace,
        selected,
        planned,
        slice::from_ref(&rule),
    )
}

/// Returns the text about `rule` for every choice, and whether it is broken: a `deny` is judged in `wide`, another rule in `here`.
fn printed_widely(
    alloc: Global,
    asked: PolicyQuestion<'_, '_, '_, '_>,
    workspace: &Workspace<'_>,
    selected: &[usize],
    here: Planned<'_, '_, '_, '_, '_>,
    wide: Wide<'_, '_, '_, '_, '_>,
    rule: Rule<'_>,
) -> Result<PolicyText, Fault>
    requires here { IsScene (scene_by (workspace_text workspace.now) selected.now (question_text asked) here) }
    requires wide { AreWide (wide_by (workspace_text workspace.now) selected.now (question_text asked) wide) }
    ensures text { IfOk result (λ printed. spec.IsRuleText (question_text asked.entry) (judged_widely (scene_by (workspace_text workspace.now) selected.now (question_text asked.entry) here.entry) (wide_by (workspace_text workspace.now) selected.now (question_text asked.entry) wide.entry) (rule_text rule.entry)) (printed_text printed)) }
    ensures fault { IfErr result (λ fault. Says fault (spec.IsRuleRefusal (question_text asked.entry) (judged_widely (scene_by (workspace_text workspace.now) selected.now (question_text asked.entry) here.entry) (wide_by (workspace_text workspace.now) selected.now (question_text asked.entry) wide.entry) (rule_text rule.entry)))) }
{
    match rule.kind {
        RuleKind::Deny {
            feature: _,
            on: None,
        } => printed_in(alloc, asked, workspace, selected, wide.widest, rule),
        RuleKind::Deny {
            feature: _,
            on: Some(_),
        } => printed_in(alloc, asked, workspace, selected, wide.all, rule),
        RuleKind::Require { feature: _ } | RuleKind::DenyDuplicates { spec: _ } => {
            printed_in(alloc, asked, workspace, selected, here, rule)
        }
    }
}

/// Appends `one` to `printed`.
fn append(printed: &mut PolicyText, one: &PolicyText) -> Result<(), AllocError>
    ensures text { OnOk result (printed.new.text.items ≡ printed.old.text.items ++ one.now.text.items) }
    ensures is_broken { OnOk result (printed.new.is_broken ≡ (printed.old.is_broken || one.now.is_broken)) }
{
    printed.text.extend_from_slice(&one.text)?;
    printed.is_broken = printed.is_broken || one.is_broken;
    Ok(())
}

/// Returns the joined texts about the rules of the policy for every choice, and whether one is broken.
fn printed_each(
    alloc: Global,
    asked: PolicyQuestion<'_, '_, '_, '_>,
    workspace: &Workspace<'_>,
    selected: &[usize],
    here: Planned<'_, '_, '_, '_, '_>,
    wide: Wide<'_, '_, '_, '_, '_>,
) -> Result<PolicyText, Fault>
    requires here { IsScene (scene_by (workspace_text workspace.now) selected.now (question_text asked) here) }
    requires wide { AreWide (wide_by (workspace_text workspace.now) selected.now (question_text asked) wide) }
    ensures text { IfOk result (λ printed. spec.IsPolicyText (question_text asked.entry) (scenes_by (workspace_text workspace.now) selected.now (question_text asked.entry) here.entry (Some wide.entry)) (printed_text printed)) }
    ensures fault { IfErr result (λ fault. Says fault (spec.IsRulesRefusal (question_text asked.entry) (scenes_by (workspace_text workspace.now) selected.now (question_text asked.entry) here.entry (Some wide.entry)))) }
{
    let mut printed = PolicyText {
        text: Vec::new(alloc),
        is_broken: false,
    };
    for rule in asked.rules {
        let one = printed_widely(alloc, asked, workspace, selected, here, wide, *rule)?;
        append(&mut printed, &one)?;
    }
    Ok(printed)
}

/// Returns the joined texts about the rules of the policy, and whether one is broken. The build selects the packages `selected`, and `here` is
/// its plan. If `wide` is given, the rules are judged for every choice.
pub(crate) fn printed_rules(
    alloc: Global,
    asked: PolicyQuestion<'_, '_, '_, '_>,
    workspace: &Workspace<'_>,
    selected: &[usize],
    here: Planned<'_, '_, '_, '_, '_>,
    wide: Option<Wide<'_, '_, '_, '_, '_>>,
) -> Result<PolicyText, Fault>
    requires { AreScenes (scenes_by (workspace_text workspace.now) selected.now (question_text asked) here wide) }
    ensures text { IfOk result (λ printed. spec.IsPolicyText (question_text asked.entry) (scenes_by (workspace_text workspace.now) selected.now (question_text asked.entry) here.entry wide.entry) (printed_text printed)) }
    ensures fault { IfErr result (λ fault. Says fault (spec.IsRulesRefusal (question_text asked.entry) (scenes_by (workspace_text workspace.now) selected.now (question_text asked.entry) here.entry wide.entry))) }
{
    match wide {
        Some(wide) => printed_each(alloc, asked, workspace, selected, here, wide),
        None => printed_all(alloc, asked, workspace, selected, here, asked.rules),
    }
}
