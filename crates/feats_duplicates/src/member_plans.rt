//! The plans of the selected members, each alone.
ghost use Rattle.std.specs.Prelude.{◌≡◌, ◌<◌, ◌++◌, ◌∷◌, [], Err, IfErr, IfOk, OnOk, if◌then◌else◌, length, map, nat_eq};
ghost use Rattle.std.specs.List.{AllByRecursion, list_any};
ghost use Rattle.cargo_workspaces.specs.Views.{package_text};
ghost use Rattle.cargo_workspaces.specs.WorkspaceView.{workspace_text};
ghost use Rattle.cargo_plans.specs.WordsView.{words_text};
ghost use Rattle.plan_words.specs.Choices.{choose as chosen_by};
ghost use Rattle.plan_words.specs.Refusals.{IfNotMemory, refusal_of};
ghost use Rattle.plan_words.specs.Selections.{selection_text};
ghost use Rattle.feats_duplicates.specs.MemberPlans as spec;
ghost use Rattle.feats_duplicates.specs.MemberPlans.{AreMemberPlans, ArePlansAlone, IsMemberPlan};
ghost use Rattle.feats_duplicates.specs.Views.{member_plan_text};

use crate::outcomes::{Outcome, outcome_of};
use cargo_plans::{PackageChoice, PlanWords, Selection, WordFault};
use cargo_workspaces::{Package, Workspace};
use plan_rows::Platform;
use plan_words::choose;
use std::alloc::{AllocError, Global};
use std::slice;

/// What the plan of one selected member alone builds, or why there is none.
#[derive(Drop)]
pub struct MemberPlan<'w> {
    /// The number of the member.
    pub member: usize,
    pub outcome: Outcome<'w>,
}

/// Returns `selection` with `package` as the only selected one.
fn selection_of<'w>(selection: Selection<'w>, package: &'w Package<'_>) -> Selection<'w>
    ensures { selection_text result ≡ spec.select_one (package_text «package».now).id (selection_text selection.entry) }
{
    Selection {
        packages: PackageChoice::Named(slice::from_ref(&package.id)),
        features: selection.features,
        all_features: selection.all_features,
        no_default_features: selection.no_default_features,
        split: selection.split,
    }
}

/// Returns `words` with `package` as the only selected one.
fn words_of<'w, 'n, P: Platform>(
    words: &PlanWords<'w, 'n, P>,
    package: &'w Package<'_>,
) -> PlanWords<'w, 'n, P>
    ensures { words_text P.holds result ≡ spec.alone (package_text «package».now).id (words_text P.holds words.now) }
{
    PlanWords {
        selection: selection_of(words.selection, package),
        choice: words.choice,
        host: words.host,
        targets: words.targets,
    }
}

/// Returns what member `member` alone builds by `words`, or why it has no plan.
fn plan_of_member<'w, P: Platform>(
    alloc: Global,
    workspace: &'w Workspace<'_>,
    words: &PlanWords<'w, '_, P>,
    member: usize,
) -> Result<MemberPlan<'w>, AllocError>
    requires { member < length (workspace_text workspace.now).packages }
    ensures number { IfOk result (λ plan. plan.member ≡ member) }
    ensures plan { IfOk result (λ plan. IsMemberPlan (workspace_text workspace.now) (words_text P.holds words.now) (member_plan_text plan)) }
{
    let words = words_of(words, workspace.package(member));
    let outcome = outcome_of(alloc, workspace, &words)?;
    Ok(MemberPlan { member, outcome })
}

/// Returns whether `member` is one of `selected`.
fn is_selected(selected: &[usize], member: usize) -> bool
    ensures { result ≡ list_any (nat_eq member) selected.now }
{
    selected.contains(&member)
}

/// Appends the plan of member `member` alone, if `flag`.
fn push_if<'w, P: Platform>(
    alloc: Global,
    plans: &mut Vec<MemberPlan<'w>>,
    workspace: &'w Workspace<'_>,
    words: &PlanWords<'w, '_, P>,
    member: usize,
    flag: bool,
) -> Result<(), AllocError>
    requires { member < length (workspace_text workspace.now).packages }
    ensures members { OnOk result (map (λ p. p.member) (map member_plan_text plans.new.items) ≡ map (λ p. p.member) (map member_plan_text plans.old.items) ++ (if flag then member ∷ [] else [])) }
    ensures plans { OnOk result (AllByRecursion (IsMemberPlan (workspace_text workspace.now) (words_text P.holds words.now)) (map member_plan_text plans.old.items) → AllByRecursion (IsMemberPlan (workspace_text workspace.now) (words_text P.holds words.now)) (map member_plan_text plans.new.items)) }
{
    if flag {
        plans.push(plan_of_member(alloc, workspace, words, member)?)?;
    }
    Ok(())
}

/// Returns the plans of the members among the packages `selected`, each alone.
fn plans_of<'w, P: Platform>(
    alloc: Global,
    workspace: &'w Workspace<'_>,
    words: &PlanWords<'w, '_, P>,
    selected: &[usize],
) -> Result<Vec<MemberPlan<'w>>, AllocError>
    ensures { IfOk result (λ plans. AreMemberPlans (workspace_text workspace.now) (words_text P.holds words.now) (spec.selected_members (workspace_text workspace.now) selected.now) (map member_plan_text plans.items)) }
{
    // (calls named facts() carry the invariant into the proof)
    workspace.facts();
    let mut plans = Vec::new(alloc);
    for member in workspace.members() {
        let flag = is_selected(selected, *member);
        push_if(alloc, &mut plans, workspace, words, *member, flag)?;
    }
    Ok(plans)
}

/// Returns the plan of each member that `words` select in `workspace`, alone and in the order of the document: the same words select
/// that member and no other package. The only errors are the refusal of the words, and `Memory` if an allocation fails.
pub fn plans_alone<'w, P: Platform>(
    alloc: Global,
    workspace: &'w Workspace<'_>,
    words: &PlanWords<'w, '_, P>,
) -> Result<Vec<MemberPlan<'w>>, WordFault<'w>>
    ensures plans { IfOk result (λ plans. ArePlansAlone (workspace_text workspace.now) (words_text P.holds words.now) (map member_plan_text plans.items)) }
    ensures fault { IfErr result (λ fault. IfNotMemory (refusal_of fault) (chosen_by (workspace_text workspace.now) (selection_text words.now.selection) ≡ Err (refusal_of fault))) }
{
    let chosen = choose(alloc, workspace, &words.selection)?;
    Ok(plans_of(alloc, workspace, words, &chosen.selected)?)
}
