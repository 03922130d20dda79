//! The packages that members build differently although they have got lines for them.
ghost use Rattle.std.specs.Prelude.{◌≡◌, ◌++◌, ◌∷◌, [], IfOk, OnOk, map, filter, not, if◌then◌else◌};
ghost use Rattle.std.specs.List.{list_all, list_any};
ghost use Rattle.cargo_plans.specs.WordsView.{words_text};
ghost use Rattle.cargo_workspaces.specs.Views.{package_text, texts};
ghost use Rattle.cargo_workspaces.specs.WorkspaceView.{workspace_text};
ghost use Rattle.feats_duplicates.specs.Alone as alone_spec;
ghost use Rattle.feats_duplicates.specs.MemberPlans.{ArePlansAlone};
ghost use Rattle.feats_duplicates.specs.Views.{alone_text, member_plan_text, member_unit_text, outcome_text};
ghost use Rattle.feats_duplicates.specs.Disagreements as spec;
ghost use Rattle.feats_duplicates.specs.Disagreements.{AreDisagreements, AreDisagreementsIn};
ghost use Rattle.feats_duplicates.specs.Joined.{joined_workspace as joined_of};
ghost use Rattle.feats_duplicates.specs.DisagreementViews.{disagreement_text};

use crate::alone::{Alone, alone_of};
use crate::joined::joined_workspace;
use crate::member_plans::{MemberPlan, plans_alone};
use crate::member_units::MemberUnit;
use crate::outcomes::Outcome;
use cargo_plans::{Place, PlanWords};
use cargo_workspaces::{Package, Workspace};
use plan_rows::Platform;
use std::alloc::{AllocError, Global};

/// A package and a place for which members still have different features, although each has got a line for it.
#[derive(Clone, Copy)]
pub struct Disagreement {
    /// The number of the package.
    pub package: usize,
    pub place: Place,
}

/// Returns whether `outcome` is a plan.
fn is_plan(outcome: &Outcome<'_>) -> bool
    ensures { result ≡ spec.is_plan (outcome_text outcome.now) }
{
    match outcome {
        Outcome::Built(_) => true,
        Outcome::NotPlanned(_) => false,
    }
}

/// Returns whether `plan` is one of member `member`.
fn is_plan_of(plan: &MemberPlan<'_>, member: usize) -> bool
    ensures { result ≡ spec.is_plan_of member (member_plan_text plan.now) }
{
    member == plan.member && is_plan(&plan.outcome)
}

/// Returns whether the member of `row` has a plan among `plans`.
fn has_plan(plans: &[MemberPlan<'_>], row: MemberUnit<'_, '_>) -> bool
    ensures { result ≡ spec.has_plan (map member_plan_text plans.now) (member_unit_text row.entry) }
{
    for plan in plans {
        if is_plan_of(plan, row.member) {
            return true;
        }
    }
    false
}

/// Returns whether the member of each of `rows` has a plan among `plans`.
fn have_plans(plans: &[MemberPlan<'_>], rows: &[MemberUnit<'_, '_>]) -> bool
    ensures { result ≡ list_all (spec.has_plan (map member_plan_text plans.now)) (map member_unit_text rows.now) }
{
    for row in rows {
        if !has_plan(plans, *row) {
            return false;
        }
    }
    true
}

/// Returns whether both places are the same.
fn same_place(place: Place, other: Place) -> bool
    ensures { result ≡ alone_spec.same_place place other }
{
    match (place, other) {
        (Place::Host, Place::Host) => true,
        (Place::Target(number), Place::Target(another)) => number == another,
        _ => false,
    }
}

/// Returns whether both are of one package and one place.
fn is_same(alone: &Alone<'_, '_>, other: &Alone<'_, '_>) -> bool
    ensures { result ≡ spec.is_same (alone_text alone.now) (alone_text other.now) }
{
    alone.package == other.package && same_place(alone.place, other.place)
}

/// Returns whether one of `after` is of the package and the place of `alone`.
fn still_differs(after: &[Alone<'_, '_>], alone: &Alone<'_, '_>) -> bool
    ensures { result ≡ list_any (spec.is_same (alone_text alone.now)) (map alone_text after.now) }
{
    for other in after {
        if is_same(alone, other) {
            return true;
        }
    }
    false
}

/// Returns whether the members of `alone` agree in `plans`. `after` has the packages that `plans` build with different features.
fn agrees(after: &[Alone<'_, '_>], plans: &[MemberPlan<'_>], alone: &Alone<'_, '_>) -> bool
    ensures { result ≡ spec.agrees (map alone_text after.now) (map member_plan_text plans.now) (alone_text alone.now) }
{
    have_plans(plans, &alone.units) && !still_differs(after, alone)
}

/// Appends the package and the place of `alone`, if `flag`.
fn push_if(
    list: &mut Vec<Disagreement>,
    flag: bool,
    alone: &Alone<'_, '_>,
) -> Result<(), AllocError>
    ensures { OnOk result (map disagreement_text list.new.items ≡ map disagreement_text list.old.items ++ (if flag then spec.disagreement (alone_text alone.now) ∷ [] else [])) }
{
    if flag {
        list.push(Disagreement {
            package: alone.package,
            place: alone.place,
        })?;
    }
    Ok(())
}

/// Returns the items of `list` on which the members don't agree in `plans`. `after` has the packages that `plans` build with different
/// features.
fn disagreements_among(
    alloc: Global,
    after: &[Alone<'_, '_>],
    plans: &[MemberPlan<'_>],
    list: &[Alone<'_, '_>],
) -> Result<Vec<Disagreement>, AllocError>
    ensures { IfOk result (λ found. map disagreement_text found.items
        ≡ map spec.disagreement (filter (λ a. not (spec.agrees (map alone_text after.now) (map member_plan_text plans.now) a)) (map alone_text list.now))) }
{
    let mut found = Vec::new(alloc);
    for alone in list {
        push_if(&mut found, !agrees(after, plans, alone), alone)?;
    }
    Ok(found)
}

/// Returns those of `list` on which the members don't agree in `plans`, over the packages of the workspace.
fn disagreements_in(
    alloc: Global,
    packages: &[Package<'_>],
    names: &[&str],
    plans: &[MemberPlan<'_>],
    list: &[Alone<'_, '_>],
) -> Result<Vec<Disagreement>, AllocError>
    ensures { IfOk result (λ found. map disagreement_text found.items
        ≡ spec.disagreements (map package_text packages.now) (texts names.now) (map member_plan_text plans.now) (map alone_text list.now)) }
{
    let after = alone_of(alloc, packages, names, plans)?;
    let found = disagreements_among(alloc, &after, plans, list);
    drop(after);
    found
}

/// Returns the plans of the selected members alone.
fn plans_of<'w, P: Platform>(
    alloc: Global,
    workspace: &'w Workspace<'_>,
    words: &PlanWords<'w, '_, P>,
) -> Result<Vec<MemberPlan<'w>>, AllocError>
    ensures { IfOk result (λ plans. ArePlansAlone (workspace_text workspace.now) (words_text P.holds words.now) (map member_plan_text plans.items)) }
{
    match plans_alone(alloc, workspace, words) {
        Ok(plans) => Ok(plans),
        Err(_) => Err(AllocError),
    }
}

/// Returns those of `list` on which the members that `words` select don't agree if each is planned alone in `workspace`.
fn disagreements_with<P: Platform>(
    alloc: Global,
    workspace: &Workspace<'_>,
    words: &PlanWords<'_, '_, P>,
    names: &[&str],
    list: &[Alone<'_, '_>],
) -> Result<Vec<Disagreement>, AllocError>
    ensures { IfOk result (λ found. AreDisagreementsIn (workspace_text workspace.now) (words_text P.holds words.now) (texts names.now) (map alone_text list.now) (map disagreement_text found.items)) }
{
    let plans = plans_of(alloc, workspace, words)?;
    disagreements_in(alloc, workspace.packages(), names, &plans, list)
}

/// Returns those of `list` on which the members that `words` select don't agree if each is planned alone in the joined workspace.
fn disagreements_joined<P: Platform>(
    alloc: Global,
    workspace: &Workspace<'_>,
    words: &PlanWords<'_, '_, P>,
    names: &[&str],
    list: &[Alone<'_, '_>],
) -> Result<Vec<Disagreement>, AllocError>
    ensures { IfOk result (λ found. AreDisagreementsIn (joined_of (workspace_text workspace.now) (map alone_text list.now))
        (words_text P.holds words.now) (texts names.now) (map alone_text list.now) (map disagreement_text found.items)) }
{
    let joined = joined_workspace(alloc, workspace, list)?;
    let found = disagreements_with(alloc, &joined, words, names, list);
    drop(joined);
    found
}

/// Returns those of `list` on which the members still don't agree after each has got a line for them. These are the packages and places
/// that get different features if each member that `words` select is planned alone in the joined workspace, and those that a
/// member builds which has no plan there. The target platforms have the names `names`. An allocation's failure is the only error.
pub fn disagreements_of<P: Platform>(
    alloc: Global,
    workspace: &Workspace<'_>,
    words: &PlanWords<'_, '_, P>,
    names: &[&str],
    list: &[Alone<'_, '_>],
) -> Result<Vec<Disagreement>, AllocError>
    ensures { IfOk result (λ found. AreDisagreements (workspace_text workspace.now) (words_text P.holds words.now) (texts names.now) (map alone_text list.now) (map disagreement_text found.items)) }
{
    match list {
        [] => Ok(Vec::new(alloc)),
        [_, ..] => disagreements_joined(alloc, workspace, words, names, list),
    }
}

/// Returns whether `disagreement` is of the package and the place of `alone`.
fn is_of(alone: &Alone<'_, '_>, disagreement: &Disagreement) -> bool
    ensures { result ≡ spec.is_of (alone_text alone.now) (disagreement_text disagreement.now) }
{
    alone.package == disagreement.package && same_place(alone.place, disagreement.place)
}

/// Returns whether none of `disagreements` is of the package and the place of `alone`.
pub fn is_agreed(disagreements: &[Disagreement], alone: &Alone<'_, '_>) -> bool
    ensures { result ≡ spec.is_agreed (map disagreement_text disagreements.now) (alone_text alone.now) }
{
    for disagreement in disagreements {
        if is_of(alone, disagreement) {
            return false;
        }
    }
    true
}
