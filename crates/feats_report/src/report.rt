//! The data of a page.
ghost use Rattle.std.specs.Prelude.{◌≡◌, IfOk, false};
ghost use Rattle.std.specs.List.{list_any};
ghost use Rattle.cargo_plans.specs.Plans.{IsPlanOf};
ghost use Rattle.cargo_plans.specs.built_parts.BuiltViews.{builds_in, is_built_in};
ghost use Rattle.cargo_plans.specs.WordsView.{words_text};
ghost use Rattle.cargo_plans.specs.plan_steps.PlanViews.{plan_text};
ghost use Rattle.cargo_workspaces.specs.WorkspaceView.{workspace_text};
ghost use Rattle.page_data.specs.Arrays.{array_of_lines};
ghost use Rattle.page_data.specs.Pages.{is_markup};
ghost use Rattle.feats_report.specs.Declarations.{declarations_of};
ghost use Rattle.feats_report.specs.Features.{features_of};
ghost use Rattle.feats_report.specs.Reports as spec;
ghost use Rattle.feats_report.specs.inner.Members.{parts_text};

use crate::declarations::declarations_of;
use crate::features::features_of;
use crate::numbers::{numbers_text, pairs_text};
use crate::objects::{Member, page_object};
use cargo_plans::built_parts::BuiltParts;
use cargo_plans::{Plan, PlanWords, Platform};
use cargo_workspaces::Workspace;
use feats_why::{settings_of, why_objects};
use page_data::array_of_lines;
use plan_whys::explanation;
use plan_whys::links::{root_units, unit_links};
use std::alloc::{AllocError, Global};

/// The values of a report, each as JSON.
#[derive(Clone, Copy)]
pub(crate) struct Parts<'r> {
    pub(crate) units: &'r [u8],
    pub(crate) roots: &'r [u8],
    pub(crate) links: &'r [u8],
    pub(crate) declarations: &'r [u8],
    pub(crate) steps: &'r [u8],
    pub(crate) features: &'r [u8],
    pub(crate) specs: &'r [u8],
}

/// Returns the text of the numbers of the units at which step `built` of `plan` starts.
fn roots_text(alloc: Global, plan: &Plan<'_>) -> Result<Vec<u8>, AllocError>
    ensures { IfOk result (λ text. text.items ≡ spec.roots_text (plan_text plan.now)) }
{
    let roots = root_units(alloc, plan)?;
    numbers_text(alloc, &roots)
}

/// Returns the text of the links between the units of `plan`.
fn links_text(alloc: Global, plan: &Plan<'_>) -> Result<Vec<u8>, AllocError>
    ensures { IfOk result (λ text. spec.IsLinksText (plan_text plan.now) text.items) }
{
    let links = unit_links(alloc, plan)?;
    pairs_text(alloc, &links)
}

/// Returns the array of the steps why everything that is on in `plan` is on.
fn steps_text<P: Platform>(
    alloc: Global,
    workspace: &Workspace<'_>,
    words: &PlanWords<'_, '_, P>,
    plan: &Plan<'_>,
) -> Result<Vec<u8>, AllocError>
    requires plan { IsPlanOf (workspace_text workspace.now) (words_text P.holds words.now) (plan_text plan.now) }
    ensures { IfOk result (λ text. spec.IsStepsText (workspace_text workspace.now) (words_text P.holds words.now) (plan_text plan.now) text.items) }
{
    let whys = explanation(alloc, workspace, words, plan)?;
    let lines = why_objects(alloc, workspace, &settings_of(words), &whys)?;
    array_of_lines(alloc, &lines)
}

/// Returns the array of the declarations by which packages that are built lead to packages that are built. `built` are the built parts.
fn declarations_text(
    alloc: Global,
    workspace: &Workspace<'_>,
    built: &BuiltParts<'_>,
) -> Result<Vec<u8>, AllocError>
    ensures { IfOk result (λ text. text.items ≡ array_of_lines (declarations_of (builds_in built.now) (workspace_text workspace.now).packages)) }
{
    let lines = declarations_of(alloc, built, workspace.packages())?;
    array_of_lines(alloc, &lines)
}

/// Returns the array of the features of the packages that are built. `built` are the built parts.
fn features_text(
    alloc: Global,
    workspace: &Workspace<'_>,
    built: &BuiltParts<'_>,
) -> Result<Vec<u8>, AllocError>
    ensures { IfOk result (λ text. text.items ≡ array_of_lines (features_of (builds_in built.now) (is_built_in built.now) (workspace_text workspace.now).packages)) }
{
    let lines = features_of(alloc, built, workspace.packages())?;
    array_of_lines(alloc, &lines)
}

/// Returns the data of `parts`.
fn data_of(alloc: Global, parts: Parts<'_>) -> Result<Vec<u8>, AllocError>
    ensures text { IfOk result (λ text. text.items ≡ spec.data_text (parts_text parts.entry)) }
    ensures safe { IfOk result (λ text. list_any is_markup text.items ≡ false) }
{
    let members = [
        Member {
            name: "units",
            value: parts.units,
        },
        Member {
            name: "roots",
            value: parts.roots,
        },
        Member {
            name: "links",
            value: parts.links,
        },
        Member {
            name: "declarations",
            value: parts.declarations,
        },
        Member {
            name: "steps",
            value: parts.steps,
        },
        Member {
            name: "features",
            value: parts.features,
        },
        Member {
            name: "specs",
            value: parts.specs,
        },
    ];
    page_object(alloc, &members)
}

/// Returns the data of a page about `plan`, the plan of `words`: one JSON value and a line feed. `units` and `specs` are lines of JSON
/// objects. No byte is `<`, `>` or `&`. An allocation's failure is the only error.
pub fn report_text<P: Platform>(
    alloc: Global,
    workspace: &Workspace<'_>,
    words: &PlanWords<'_, '_, P>,
    plan: &Plan<'_>,
    units: &[u8],
    specs: &[u8],
) -> Result<Vec<u8>, AllocError>
    requires plan { IsPlanOf (workspace_text workspace.now) (words_text P.holds words.now) (plan_text plan.now) }
    ensures report { IfOk result (λ text. spec.IsReport (workspace_text workspace.now) (words_text P.holds words.now) (plan_text plan.now) units.now specs.now text.items) }
    ensures safe { IfOk result (λ text. list_any is_markup text.items ≡ false) }
{
    let built = BuiltParts::of_plan(alloc, words.selection.split, plan)?;
    let units = array_of_lines(alloc, units)?;
    let roots = roots_text(alloc, plan)?;
    let links = links_text(alloc, plan)?;
    let declarations = declarations_text(alloc, workspace, &built)?;
    let steps = steps_text(alloc, workspace, words, plan)?;
    let features = features_text(alloc, workspace, &built)?;
    let specs = array_of_lines(alloc, specs)?;
    let parts = Parts {
        units: &units,
        roots: &roots,
        links: &links,
        declarations: &declarations,
        steps: &steps,
        features: &features,
        specs: &specs,
    };
    data_of(alloc, parts)
}

/// Returns the data of a page about the differences of two builds, as one JSON value and a line feed: their objects in `differences`, a
/// line each. No byte is `<`, `>` or `&`. An allocation's failure is the only error.
pub fn differences_text(alloc: Global, differences: &[u8]) -> Result<Vec<u8>, AllocError>
    ensures text { IfOk result (λ text. text.items ≡ spec.differences_text differences.now) }
    ensures safe { IfOk result (λ text. list_any is_markup text.items ≡ false) }
{
    let array = array_of_lines(alloc, differences)?;
    let members = [Member {
        name: "differences",
        value: &array,
    }];
    page_object(alloc, &members)
}
