//! The edits after which a build is smaller.
ghost use Rattle.std.specs.Prelude.{◌≡◌, ◌++◌, ◌∷◌, [], Err, IfErr, IfOk, OnOk, if◌then◌else◌, map, nat_eq};
ghost use Rattle.std.specs.List.{filter, list_any};
ghost use Rattle.cargo_workspaces.specs.WorkspaceView.{workspace_text};
ghost use Rattle.cargo_plans.specs.WordsView.{words_text};
ghost use Rattle.cargo_manifests.specs.inherited.InheritanceView.{inheritance_text};
ghost use Rattle.cargo_plans.specs.plan_steps.PlanViews.{plan_text};
ghost use Rattle.cargo_plans.specs.plan_units.UnitViews.{unit_text};
ghost use Rattle.plan_words.specs.Choices.{choose as chosen_by};
ghost use Rattle.plan_words.specs.Refusals.{IfNotMemory, refusal_of};
ghost use Rattle.plan_words.specs.Selections.{selection_text};
ghost use Rattle.feats_slim.specs.edits.Orders.{IsInOrder};
ghost use Rattle.feats_slim.specs.edits.Slims as spec;
ghost use Rattle.feats_slim.specs.edits.Slims.{AreSlimsBy, AreSlimsOf};
ghost use Rattle.feats_slim.specs.edits.SlimViews.{slim_text};

use crate::edits::lost::Slim;
use crate::edits::orders::sort_slims;
use crate::edits::trials::all_tried;
use cargo_manifests::{Inheritance, edits_of};
use cargo_plans::{Plan, PlanWords, Unit, WordFault};
use cargo_workspaces::Workspace;
use plan_rows::Platform;
use plan_words::choose;
use std::alloc::{AllocError, Global};

/// Returns whether `member` is one of `selected`.
fn is_selected(selected: &[usize], member: usize) -> bool
    ensures { result ≡ list_any (nat_eq member) selected.now }
{
    selected.contains(&member)
}

/// Returns the members of `workspace` among the packages `selected`, in the order of the document.
fn selected_members(
    alloc: Global,
    workspace: &Workspace<'_>,
    selected: &[usize],
) -> Result<Vec<usize>, AllocError>
    ensures { IfOk result (λ members. members.items ≡ spec.selected_members (workspace_text workspace.now) selected.now) }
{
    let mut members = Vec::new(alloc);
    for member in workspace.members() {
        if is_selected(selected, *member) {
            members.push(*member)?;
        }
    }
    Ok(members)
}

/// Returns whether a package or a feature falls away by the edit of `slim`.
fn makes_smaller(slim: &Slim<'_>) -> bool
    ensures { result ≡ spec.makes_smaller (slim_text slim.now) }
{
    slim.packages > 0 || slim.features > 0
}

/// Returns those of `tried` by which something falls away.
fn smaller<'v>(alloc: Global, tried: &[Slim<'v>]) -> Result<Vec<Slim<'v>>, AllocError>
    ensures { IfOk result (λ slims. map slim_text slims.items ≡ filter spec.makes_smaller (map slim_text tried.now)) }
{
    let mut slims = Vec::new(alloc);
    for slim in tried {
        if makes_smaller(slim) {
            slims.push(*slim)?;
        }
    }
    Ok(slims)
}

/// Returns those of `tried` by which something falls away, most first.
fn in_order<'v>(alloc: Global, tried: &[Slim<'v>]) -> Result<Vec<Slim<'v>>, AllocError>
    ensures { IfOk result (λ slims. IsInOrder (filter spec.makes_smaller (map slim_text tried.now)) (map slim_text slims.items)) }
{
    let mut slims = smaller(alloc, tried)?;
    sort_slims(&mut slims)?;
    Ok(slims)
}

/// Returns the edits of the packages `members` by which packages or features fall away from the units `before`, most first.
fn slims_by<'w, 'v, P: Platform>(
    alloc: Global,
    workspace: &Workspace<'v>,
    inheritance: &Inheritance<'_>,
    words: &PlanWords<'w, '_, P>,
    before: &[Unit<'_>],
    members: &[usize],
) -> Result<Vec<Slim<'v>>, AllocError>
    ensures { IfOk result (λ slims. AreSlimsBy (workspace_text workspace.now) (inheritance_text inheritance.now) (words_text P.holds words.now) (map unit_text before.now) members.now (map slim_text slims.items)) }
{
    let edits = edits_of(alloc, workspace, inheritance, members)?;
    let tried = all_tried(alloc, workspace, inheritance, words, before, &edits)?;
    in_order(alloc, &tried)
}

/// Returns the edits of the members among the packages `selected` by which packages or features fall away from the units `before`, most
/// first.
fn slims_of_selected<'w, 'v, P: Platform>(
    alloc: Global,
    workspace: &Workspace<'v>,
    inheritance: &Inheritance<'_>,
    words: &PlanWords<'w, '_, P>,
    before: &[Unit<'_>],
    selected: &[usize],
) -> Result<Vec<Slim<'v>>, AllocError>
    ensures { IfOk result (λ slims. AreSlimsBy (workspace_text workspace.now) (inheritance_text inheritance.now) (words_text P.holds words.now) (map unit_text before.now) (spec.selected_members (workspace_text workspace.now) selected.now) (map slim_text slims.items)) }
{
    let members = selected_members(alloc, workspace, selected)?;
    slims_by(alloc, workspace, inheritance, words, before, &members)
}

/// Returns the single edits by which packages or features of `plan` fall away: most packages first, then most features, then in the order
/// of the edits. They are edits of the selected members' declarations, and of entries that these inherit by `inheritance`. `plan` is that
/// of `words` in `workspace`; the numbers are by the plan of the same words in the edited workspace. An edit is left out if nothing falls
/// away by it, or if the words have no plan in its workspace. The only errors are the refusal of the words, and `Memory` if an allocation
/// fails.
pub fn slims_of<'w, 'v, P: Platform>(
    alloc: Global,
    workspace: &'w Workspace<'v>,
    inheritance: &Inheritance<'_>,
    words: &PlanWords<'w, '_, P>,
    plan: &Plan<'_>,
) -> Result<Vec<Slim<'v>>, WordFault<'w>>
    ensures slims { IfOk result (λ slims. AreSlimsOf (workspace_text workspace.now) (inheritance_text inheritance.now) (words_text P.holds words.now) (plan_text plan.now).units (map slim_text slims.items)) }
    ensures fault { IfErr result (λ fault. IfNotMemory (refusal_of fault) (chosen_by (workspace_text workspace.now) (selection_text words.now.selection) ≡ Err (refusal_of fault))) }
{
    let chosen = choose(alloc, workspace, &words.selection)?;
    Ok(slims_of_selected(
        alloc,
        workspace,
        inheritance,
        words,
        plan.units(),
        &chosen.selected,
    )?)
}
