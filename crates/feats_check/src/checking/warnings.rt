//! Warnings about policies.
ghost use Rattle.std.specs.Prelude.{◌≡◌, ◌++◌, IfOk, IfErr, OnOk, true, map};
ghost use Rattle.std.specs.List.{list_any};
ghost use Rattle.cargo_plans.specs.WordsView.{words_text};
ghost use Rattle.cargo_workspaces.specs.WorkspaceView.{workspace_text};
ghost use Rattle.feats_files.specs.Messages.{Says};
ghost use Rattle.plan_rows.specs.platforms.HeldSpecs.{holds_on};
ghost use Rattle.feats_policies.specs.Views.{kind_text, rule_text};
ghost use Rattle.feats_check.specs.checking.Warnings as spec;
ghost use Rattle.feats_check.specs.checking.WarningViews.{policy_words, string_texts};
ghost use Rattle.feats_check.specs.checking.inner.Firsts.{IsFirst, IsNone};
ghost use Rattle.feats_check.specs.texts.Messages.{unmatched_message};

use crate::texts::{build_message, unmatched_message, unmatched_refused};
use cargo_plans::PlanWords;
use cargo_workspaces::Workspace;
use feats_files::Fault;
use feats_policies::checks::unmatched;
use feats_policies::{Rule, RuleKind};
use plan_rows::platforms::HeldSpecs;
use plan_words::choose;
use std::alloc::{AllocError, Global};

/// The policy that is checked.
#[derive(Clone, Copy)]
pub struct PolicyWords<'q, 'p> {
    /// The path of the policy, as messages name it.
    pub file: &'q str,
    /// True if the question is about every choice.
    pub every_choice: bool,
    /// True if each word must name something.
    pub strict: bool,
    pub rules: &'q [Rule<'p>],
}

/// Returns whether a rule of this kind is judged for the build alone, even for every choice.
fn is_for_build(kind: RuleKind<'_>) -> bool
    ensures { result ≡ spec.is_for_build (kind_text kind.entry) }
{
    match kind {
        RuleKind::Deny { feature: _, on: _ } => false,
        RuleKind::Require { feature: _ } | RuleKind::DenyDuplicates { spec: _ } => true,
    }
}

/// Returns whether one of `rules` is judged for the build alone, even for every choice.
fn is_any_for_build(rules: &[Rule<'_>]) -> bool
    ensures { result ≡ list_any (λ r. spec.is_for_build r.kind) (map rule_text rules.now) }
{
    for rule in rules {
        if is_for_build(rule.kind) {
            return true;
        }
    }
    false
}

/// Appends the messages about `rules` of the policy `file`, whose words name nothing.
fn push_unmatched(
    alloc: Global,
    file: &str,
    rules: &[Rule<'_>],
    lines: &mut Vec<String>,
) -> Result<(), AllocError>
    ensures { OnOk result (string_texts lines.new.items ≡ string_texts lines.old.items ++ map (unmatched_message file.now) (map rule_text rules.now)) }
{
    for rule in rules {
        lines.push(unmatched_message(alloc, file, *rule)?)?;
    }
    Ok(())
}

/// Returns the warnings about `policy`, in which the words of `rules` name nothing.
fn lines_of(
    alloc: Global,
    policy: PolicyWords<'_, '_>,
    rules: &[Rule<'_>],
) -> Result<Vec<String>, AllocError>
    ensures { IfOk result (λ lines. string_texts lines.items ≡ spec.build_warnings (policy_words policy.entry) ++ map (unmatched_message policy.entry.file.now) (map rule_text rules.now)) }
{
    let mut lines = Vec::new(alloc);
    if policy.every_choice && is_any_for_build(policy.rules) {
        lines.push(build_message(alloc, policy.file)?)?;
    }
    push_unmatched(alloc, policy.file, rules, &mut lines)?;
    Ok(lines)
}

/// Returns the refusal of the policy `file` because of the first of `rules`, whose words name nothing, if `strict` and there is one.
fn check_strictly(alloc: Global, file: &str, strict: bool, rules: &[Rule<'_>]) -> Result<(), Fault>
    ensures none { OnOk result (IsNone strict (map rule_text rules.now)) }
    ensures first { IfErr result (λ fault. Says fault (IsFirst file.now strict (map rule_text rules.now))) }
{
    match rules {
        [first, ..] if strict => Err(unmatched_refused(alloc, file, *first)),
        _ => Ok(()),
    }
}

/// Returns the warnings about `policy`, where the packages `selected` are selected.
fn warnings_about(
    alloc: Global,
    policy: PolicyWords<'_, '_>,
    workspace: &Workspace<'_>,
    selected: &[usize],
) -> Result<Vec<String>, Fault>
    ensures warnings { IfOk result (λ lines. spec.AreWarningsWith (policy_words policy.entry) (workspace_text workspace.now).packages selected.now (string_texts lines.items)) }
    ensures fault { IfErr result (λ fault. Says fault (spec.IsUnmatchedRefusal (policy_words policy.entry) (workspace_text workspace.now).packages selected.now)) }
{
    let rules = unmatched(alloc, workspace, selected, policy.rules)?;
    check_strictly(alloc, policy.file, policy.strict, &rules)?;
    Ok(lines_of(alloc, policy, &rules)?)
}

/// Returns the warnings about `policy` in a build of `words`: for every choice, that some rules are judged for the build alone; and each rule
/// whose word names nothing in `workspace`. If each word must name something, the first of these rules is refused instead. Returns `Memory`
/// if an allocation fails.
pub fn policy_warnings(
    alloc: Global,
    policy: PolicyWords<'_, '_>,
    workspace: &Workspace<'_>,
    words: &PlanWords<'_, '_, HeldSpecs<'_>>,
) -> Result<Vec<String>, Fault>
    ensures warnings { IfOk result (λ lines. spec.ArePolicyWarnings (policy_words policy.entry) (workspace_text workspace.now) (words_text holds_on words.now) (string_texts lines.items)) }
    ensures fault { IfErr result (λ fault. Says fault (spec.IsStrictRefusal (policy_words policy.entry) (workspace_text workspace.now) (words_text holds_on words.now))) }
{
    match choose(alloc, workspace, &words.selection) {
        Ok(chosen) => warnings_about(alloc, policy, workspace, &chosen.selected),
        Err(_) => Err(Fault::Memory),
    }
}
