//! Why a label is on in a plan.
ghost use Rattle.std.specs.Prelude.{◌≡◌, ℕ, IfOk, length, map, option_map};
ghost use Rattle.digraphs.specs.Bits.{has};
ghost use Rattle.cargo_plans.specs.Plans.{IsPlanOf};
ghost use Rattle.cargo_plans.specs.WordsView.{words_text};
ghost use Rattle.cargo_workspaces.specs.WorkspaceView.{workspace_text};
ghost use Rattle.feature_core.specs.Nodes.{node_packages};
ghost use Rattle.cargo_plans.specs.plan_rows.SettingsView.{settings_text};
ghost use Rattle.cargo_plans.specs.plan_steps.PlanViews.{plan_text};
ghost use Rattle.cargo_plans.specs.plan_units.Commands.{on_starts};
ghost use Rattle.plan_starts.specs.step_visits.Visits.{is_start};
ghost use Rattle.plan_whys.specs.StepViews.{spot_text, why_text};
ghost use Rattle.plan_whys.specs.Whys.{Answers, AnswersBy, AnswersEach, AnswersEachBy, IsOnBy};
ghost use Rattle.plan_whys.specs.inner.Nodes.{IsLeast};

use crate::nodes::{each_from, node_of, why_from};
use crate::steps::{Spot, WhyStep};
use cargo_plans::{PackageVisit, Plan, PlanWords, Platform, Settings, on_places};
use cargo_workspaces::Workspace;
use digraphs::IxBitSet;
use feature_core::graph_laws::one_content;
use plan_words::choose;
use std::alloc::{AllocError, Global};

/// Returns the nodes at which step `on` starts.
pub(crate) fn initials_of<P: Platform>(
    alloc: Global,
    workspace: &Workspace<'_>,
    settings: &Settings<'_, '_, P>,
    on: &PackageVisit,
) -> Result<IxBitSet, AllocError>
    requires count { length settings.now.commands.now ≡ length (workspace_text workspace.now).packages }
    requires on { IsOnBy (workspace_text workspace.now) (settings_text P.holds settings.now) on.now }
    ensures size { IfOk result (λ set. length set ≡ length (node_packages on.now.visit.tables)) }
    ensures nodes { IfOk result (λ set. (n : ℕ) → has set n ≡ is_start on.now.visit.tables (on_starts (workspace_text workspace.now) (settings_text P.holds settings.now)) n) }
    ensures least { IfOk result (λ set. IsLeast on.now (has set)) }
{
    let _room = on.package_count();
    one_content(on.visited().packages());
    let places = on_places(alloc, workspace, settings)?;
    let set = on.visited().start_nodes(alloc, &places)?;
    Ok(set)
}

/// Returns why `at` is on in `plan`, which is that of `settings`: the steps from the command features to `at`, of which each has an
/// earlier one as its reason. Returns `None` if it's off. An allocation's failure is the only error.
pub fn why_by_settings<'p, P: Platform>(
    alloc: Global,
    workspace: &Workspace<'_>,
    settings: &Settings<'_, '_, P>,
    plan: &'p Plan<'_>,
    at: Spot<'_>,
) -> Result<Option<Vec<WhyStep<'p>>>, AllocError>
    requires count { length settings.now.commands.now ≡ length (workspace_text workspace.now).packages }
    requires on { IsOnBy (workspace_text workspace.now) (settings_text P.holds settings.now) (plan_text plan.now).on }
    ensures { IfOk result (λ found. Answers (workspace_text workspace.now) (settings_text P.holds settings.now) (plan_text plan.now).on
        (spot_text at.entry) (option_map (λ whys. map why_text whys.items) found)) }
{
    let on = plan.on();
    match node_of(on, at) {
        None => Ok(None),
        Some(node) => {
            let initials = initials_of(alloc, workspace, settings, on)?;
            let found = why_from(alloc, on, &initials, node)?;
            Ok(found)
        }
    }
}

/// Returns why `at` is on in `plan`, which is that of `words`: the steps from the command features to `at`, of which each has an
/// earlier one as its reason. Returns `None` if it's off. An allocation's failure is the only error.
pub fn why<'p, P: Platform>(
    alloc: Global,
    workspace: &Workspace<'_>,
    words: &PlanWords<'_, '_, P>,
    plan: &'p Plan<'_>,
    at: Spot<'_>,
) -> Result<Option<Vec<WhyStep<'p>>>, AllocError>
    requires { IsPlanOf (workspace_text workspace.now) (words_text P.holds words.now) (plan_text plan.now) }
    ensures { IfOk result (λ found. AnswersBy (workspace_text workspace.now) (words_text P.holds words.now) (plan_text plan.now).on
        (spot_text at.entry) (option_map (λ whys. map why_text whys.items) found)) }
{
    match choose(alloc, workspace, &words.selection) {
        Ok(chosen) => {
            let settings = Settings {
                split: words.selection.split,
                choice: words.choice,
                commands: &chosen.commands,
                host: words.host,
                targets: words.targets,
            };
            let found = why_by_settings(alloc, workspace, &settings, plan, at)?;
            Ok(found)
        }
        // Words that have a plan are never refused, so an allocation failed.
        Err(_) => Err(AllocError),
    }
}

/// Returns the answer of `why_by_settings` for each of `spots`, by one walk.
pub fn why_each_by_settings<'p, P: Platform>(
    alloc: Global,
    workspace: &Workspace<'_>,
    settings: &Settings<'_, '_, P>,
    plan: &'p Plan<'_>,
    spots: &[Spot<'_>],
) -> Result<Vec<Option<Vec<WhyStep<'p>>>>, AllocError>
    requires count { length settings.now.commands.now ≡ length (workspace_text workspace.now).packages }
    requires on { IsOnBy (workspace_text workspace.now) (settings_text P.holds settings.now) (plan_text plan.now).on }
    ensures { IfOk result (λ founds. AnswersEach (workspace_text workspace.now) (settings_text P.holds settings.now) (plan_text plan.now).on spots.now founds.items) }
{
    let on = plan.on();
    let initials = initials_of(alloc, workspace, settings, on)?;
    let founds = each_from(alloc, on, &initials, spots)?;
    Ok(founds)
}

/// Returns the answer of `why` for each of `spots`, by one walk.
pub fn why_each<'p, P: Platform>(
    alloc: Global,
    workspace: &Workspace<'_>,
    words: &PlanWords<'_, '_, P>,
    plan: &'p Plan<'_>,
    spots: &[Spot<'_>],
) -> Result<Vec<Option<Vec<WhyStep<'p>>>>, AllocError>
    requires { IsPlanOf (workspace_text workspace.now) (words_text P.holds words.now) (plan_text plan.now) }
    ensures { IfOk result (λ founds. AnswersEachBy (workspace_text workspace.now) (words_text P.holds words.now) (plan_text plan.now).on spots.now founds.items) }
{
    match choose(alloc, workspace, &words.selection) {
        Ok(chosen) => {
            let settings = Settings {
                split: words.selection.split,
                choice: words.choice,
                commands: &chosen.commands,
                host: words.host,
                targets: words.targets,
            };
            let founds = why_each_by_settings(alloc, workspace, &settings, plan, spots)?;
            Ok(founds)
        }
        // Words that have a plan are never refused, so an allocation failed.
        Err(_) => Err(AllocError),
    }
}
