//! The plan of a workspace.
ghost use Rattle.std.specs.Prelude.{◌≡◌, IfErr, IfOk, IsTrue, length, nat_lt};
ghost use Rattle.std.specs.List.{list_all};
ghost use Rattle.cargo_workspaces.specs.WorkspaceView.{workspace_text};
ghost use Rattle.plan_words.specs.Choices.{are_commands, chosen_text};
ghost use Rattle.cargo_plans.specs.plan_steps.PlanViews.{Plans, plan_text};
ghost use Rattle.cargo_plans.specs.Plans.{IsPlanOf, settings_by};
ghost use Rattle.cargo_plans.specs.Refusals.{IsRefusal};
ghost use Rattle.cargo_plans.specs.WordsView.{words_text};

use crate::fault::{PlanFault, of_words};
use crate::plan_steps::{Plan, Platform, Settings, StepFault, plan_of};
use crate::words::PlanWords;
use cargo_workspaces::Workspace;
use plan_words::{Chosen, choose};
use std::alloc::Global;

/// Returns the plan for what `words` choose, `chosen`; else the first fault of the steps.
fn plan_chosen<'w, P: Platform>(
    alloc: Global,
    workspace: &'w Workspace<'_>,
    words: &PlanWords<'w, '_, P>,
    chosen: &Chosen<'w>,
) -> Result<Plan<'w>, StepFault<'w>>
    requires count { length chosen.now.commands.items ≡ length (workspace_text workspace.now).packages }
    requires named { IsTrue (are_commands (chosen_text chosen.now).commands) }
    requires within { IsTrue (list_all (λ p. nat_lt p (length (workspace_text workspace.now).packages)) chosen.now.selected.items) }
    ensures { Plans (workspace_text workspace.now) (settings_by (words_text P.holds words.now) (chosen_text chosen.now)) chosen.now.selected.items result }
{
    let settings = Settings {
        split: words.selection.split,
        choice: words.choice,
        commands: &chosen.commands,
        host: words.host,
        targets: words.targets,
    };
    plan_of(alloc, workspace, &settings, &chosen.selected)
}

/// Returns the plan of `workspace` for `words`; else the first fault: of the words, then of tests, of words for targets, of a
/// started package that isn't on, and of a dependency that the document lacks. `StepFault::Memory` if an allocation fails.
pub fn plan<'w, P: Platform>(
    alloc: Global,
    workspace: &'w Workspace<'_>,
    words: &PlanWords<'w, '_, P>,
) -> Result<Plan<'w>, PlanFault<'w>>
    ensures plan { IfOk result (λ plan. IsPlanOf (workspace_text workspace.now) (words_text P.holds words.now) (plan_text plan)) }
    ensures fault { IfErr result (IsRefusal (workspace_text workspace.now) (words_text P.holds words.now)) }
{
    match choose(alloc, workspace, &words.selection) {
        Ok(chosen) => match plan_chosen(alloc, workspace, words, &chosen) {
            Ok(plan) => Ok(plan),
            Err(fault) => Err(PlanFault::Steps(fault)),
        },
        Err(fault) => Err(of_words(fault)),
    }
}
