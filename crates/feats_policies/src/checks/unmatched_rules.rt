//! Rules whose words name nothing.
ghost use Rattle.std.specs.Prelude.{◌≡◌, ◌++◌, ◌∷◌, [], IfOk, OnOk, filter, map};
ghost use Rattle.cargo_workspaces.specs.WorkspaceView.{workspace_text};
ghost use Rattle.feats_policies.specs.Views.{kind_text, rule_text};
ghost use Rattle.feats_policies.specs.checks.Checks as spec;
ghost use Rattle.feats_policies.specs.checks.Meanings.{is_empty, means_nothing, meaning_among, names_nothing};
ghost use Rattle.feats_policies.specs.checks.inner.Returned.{meaning_text};
ghost use Rattle.plan_names.specs.Matches.{packages_matching};

use crate::checks::meaning::{Meaning, meaning_of};
use crate::{Rule, RuleKind};
use cargo_workspaces::Workspace;
use plan_names::packages_matching;
use std::alloc::{AllocError, Global};

/// Returns whether `meaning` is no part at all.
fn is_nothing(meaning: &Meaning<'_>) -> bool
    ensures { result ≡ means_nothing (meaning_text meaning.now) }
{
    match meaning {
        Meaning::Parts(parts) => parts.is_empty(),
        Meaning::Several { .. } => false,
    }
}

/// Returns whether `word` means no part of a package.
fn means_nothing(
    alloc: Global,
    workspace: &Workspace<'_>,
    selected: &[usize],
    word: &str,
) -> Result<bool, AllocError>
    ensures { IfOk result (λ b. b ≡ means_nothing (meaning_among (workspace_text workspace.now).packages selected.now word.now)) }
{
    let meaning = meaning_of(alloc, workspace, selected, word)?;
    Ok(is_nothing(&meaning))
}

/// Returns whether `word` names no package.
fn names_no_package(
    alloc: Global,
    workspace: &Workspace<'_>,
    word: &str,
) -> Result<bool, AllocError>
    ensures { IfOk result (λ b. b ≡ is_empty (packages_matching (workspace_text workspace.now).packages word.now)) }
{
    let numbers = packages_matching(alloc, workspace, word)?;
    Ok(numbers.is_empty())
}

/// Returns whether the word of a rule of this kind names nothing.
fn names_nothing(
    alloc: Global,
    workspace: &Workspace<'_>,
    selected: &[usize],
    kind: RuleKind<'_>,
) -> Result<bool, AllocError>
    ensures { IfOk result (λ b. b ≡ names_nothing (workspace_text workspace.now).packages selected.now (kind_text kind.entry)) }
{
    match kind {
        RuleKind::Deny { feature, on: _ } => means_nothing(alloc, workspace, selected, feature),
        RuleKind::Require { feature } => means_nothing(alloc, workspace, selected, feature),
        RuleKind::DenyDuplicates { spec } => names_no_package(alloc, workspace, spec),
    }
}

/// Appends `rule`, if its word names nothing.
fn push_unmatched<'p>(
    alloc: Global,
    workspace: &Workspace<'_>,
    selected: &[usize],
    rule: Rule<'p>,
    list: &mut Vec<Rule<'p>>,
) -> Result<(), AllocError>
    ensures { OnOk result (map rule_text list.new.items ≡ map rule_text list.old.items ++ spec.unmatched (workspace_text workspace.now).packages selected.now (rule_text rule.entry ∷ [])) }
{
    if names_nothing(alloc, workspace, selected, rule.kind)? {
        list.push(rule)?;
    }
    Ok(())
}

/// Returns those of `rules` whose words name nothing in `workspace`, in their order. A feature's name alone is looked up in the packages
/// `selected` first. The error is that an allocation fails.
pub fn unmatched<'p>(
    alloc: Global,
    workspace: &Workspace<'_>,
    selected: &[usize],
    rules: &[Rule<'p>],
) -> Result<Vec<Rule<'p>>, AllocError>
    ensures { IfOk result (λ list. map rule_text list.items ≡ spec.unmatched (workspace_text workspace.now).packages selected.now (map rule_text rules.now)) }
{
    let mut list = Vec::new(alloc);
    for rule in rules {
        push_unmatched(alloc, workspace, selected, *rule, &mut list)?;
    }
    Ok(list)
}
