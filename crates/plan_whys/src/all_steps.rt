//! One explanation of everything that is on.
ghost use Rattle.std.specs.Prelude.{◌≡◌, ℕ, IfOk, length, map};
ghost use Rattle.guppy_packages.specs.declared.direction.DependencyDirection.TheVariants.{Forward};
ghost use Rattle.digraphs.specs.Bits.{has};
ghost use Rattle.cargo_plans.specs.Plans.{IsPlanOf};
ghost use Rattle.cargo_plans.specs.WordsView.{words_text};
ghost use Rattle.cargo_plans.specs.plan_rows.SettingsView.{settings_text};
ghost use Rattle.cargo_plans.specs.plan_steps.PlanViews.{plan_text};
ghost use Rattle.cargo_workspaces.specs.WorkspaceView.{workspace_text};
ghost use Rattle.feature_core.specs.Built.{IsBuilt};
ghost use Rattle.feature_core.specs.Nodes.{node_packages};
ghost use Rattle.feature_core.specs.Offers.{content_of};
ghost use Rattle.walk_engine.specs.Explanations.{IsExplanation, nodes_of};
ghost use Rattle.walk_engine.specs.Laws.{every};
ghost use Rattle.walk_engine.specs.Walks.{is_in};
ghost use Rattle.plan_whys.specs.AllSteps.{AreAllSteps, ExplainsOn, IsExplanationBy};
ghost use Rattle.plan_whys.specs.StepViews.{why_text};
ghost use Rattle.plan_whys.specs.Steps.{AreBacked};
ghost use Rattle.plan_whys.specs.Whys.{IsOnBy};
ghost use Rattle.plan_whys.specs.inner.Nodes.{IsLeast};

use crate::explanations::explanation_from;
use crate::spots::steps_of;
use crate::steps::WhyStep;
use crate::whys::initials_of;
use cargo_plans::{PackageVisit, Plan, PlanWords, Platform, Settings};
use cargo_workspaces::Workspace;
use digraphs::IxBitSet;
use feature_core::FeatureGraphData;
use feature_core::graph_laws::content_of_graph;
use plan_words::choose;
use std::alloc::{AllocError, Global};
use walk_engine::Step;

/// Returns `steps` with spots in place of nodes. `steps` is the explanation of the visit, from `initials`.
fn all_steps_of<'p>(
    alloc: Global,
    on: &'p PackageVisit,
    built: &FeatureGraphData,
    initials: &IxBitSet,
    steps: &[Step],
) -> Result<Vec<WhyStep<'p>>, AllocError>
    requires built { IsBuilt on.now.visit.tables built.now }
    requires size { length initials.now ≡ length (node_packages on.now.visit.tables) }
    requires explanation { IsExplanation (content_of Forward built.now) (has initials.now) every steps.now }
    requires listed { (n : ℕ) → has on.now.visit.members n ≡ is_in (nodes_of steps.now) n }
    ensures steps { IfOk result (λ whys. AreAllSteps on.now (has initials.now) (map why_text whys.items)) }
    ensures backed { IfOk result (λ whys. AreBacked (map why_text whys.items)) }
{
    content_of_graph(on.visited().packages());
    let whys = steps_of(alloc, on, built, steps)?;
    Ok(whys)
}

/// Returns a step for each node that the visit reached. The visit is the least that has `initials`.
fn all_steps_from<'p>(
    alloc: Global,
    on: &'p PackageVisit,
    initials: &IxBitSet,
) -> Result<Vec<WhyStep<'p>>, AllocError>
    requires size { length initials.now ≡ length (node_packages on.now.visit.tables) }
    requires least { IsLeast on.now (has initials.now) }
    ensures steps { IfOk result (λ whys. AreAllSteps on.now (has initials.now) (map why_text whys.items)) }
    ensures backed { IfOk result (λ whys. AreBacked (map why_text whys.items)) }
{
    let built = on.visited().built();
    let steps = explanation_from(alloc, built, initials)?;
    all_steps_of(alloc, on, built, initials, &steps)
}

/// Returns the result of `explanation` for `plan`, which is that of `settings`.
fn explanation_by_settings<'p, P: Platform>(
    alloc: Global,
    workspace: &Workspace<'_>,
    settings: &Settings<'_, '_, P>,
    plan: &'p Plan<'_>,
) -> Result<Vec<WhyStep<'p>>, AllocError>
    requires count { length settings.now.commands.now ≡ length (workspace_text workspace.now).packages }
    requires on { IsOnBy (workspace_text workspace.now) (settings_text P.holds settings.now) (plan_text plan.now).on }
    ensures steps { IfOk result (λ whys. ExplainsOn (workspace_text workspace.now) (settings_text P.holds settings.now) (plan_text plan.now).on
        (map why_text whys.items)) }
    ensures backed { IfOk result (λ whys. AreBacked (map why_text whys.items)) }
{
    let on = plan.on();
    let initials = initials_of(alloc, workspace, settings, on)?;
    let whys = all_steps_from(alloc, on, &initials)?;
    Ok(whys)
}

/// Returns why everything that is on in `plan` is on, by one walk: a step for each label that is on, and only for those. The spots that
/// a step's reason names are at earlier steps. An allocation's failure is the only error.
pub fn explanation<'p, P: Platform>(
    alloc: Global,
    workspace: &Workspace<'_>,
    words: &PlanWords<'_, '_, P>,
    plan: &'p Plan<'_>,
) -> Result<Vec<WhyStep<'p>>, AllocError>
    requires { IsPlanOf (workspace_text workspace.now) (words_text P.holds words.now) (plan_text plan.now) }
    ensures steps { IfOk result (λ whys. IsExplanationBy (workspace_text workspace.now) (words_text P.holds words.now) (plan_text plan.now).on
        (map why_text whys.items)) }
    ensures backed { IfOk result (λ whys. AreBacked (map why_text whys.items)) }
{
    match choose(alloc, workspace, &words.selection) {
        Ok(chosen) => {
            let settings = Settings {
                split: words.selection.split,
                choice: words.choice,
                commands: &chosen.commands,
                host: words.host,
                targets: words.targets,
            };
            let whys = explanation_by_settings(alloc, workspace, &settings, plan)?;
            Ok(whys)
        }
        // Words that have a plan are never refused, so an allocation failed.
        Err(_) => Err(AllocError),
    }
}
