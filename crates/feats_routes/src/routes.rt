//! The text of the routes to a package.
ghost use Rattle.std.specs.Prelude.{◌≡◌, ◌==◌, ◌++◌, ◌∷◌, [], IfOk, OnOk, if◌then◌else◌, map};
ghost use Rattle.cargo_plans.specs.WordsView.{words_text};
ghost use Rattle.cargo_plans.specs.plan_steps.PlanViews.{plan_text};
ghost use Rattle.cargo_plans.specs.plan_units.UnitViews.{unit_text};
ghost use Rattle.cargo_workspaces.specs.Views.{package_text, texts};
ghost use Rattle.cargo_workspaces.specs.WorkspaceView.{workspace_text};
ghost use Rattle.feats_tree.specs.packages.Trees.{units_of as units_of_package};
ghost use Rattle.feats_tree.specs.trees.Titles.{title_text};
ghost use Rattle.feats_why.specs.Settings.{settings_text};
ghost use Rattle.shortest_routes.specs.Routes.{route_text};
ghost use Rattle.feats_routes.specs.Routes as spec;
ghost use Rattle.feats_routes.specs.Shown.{shown_text};

use crate::lines::route_lines;
use crate::objects::route_objects;
use crate::shown::Shown;
use cargo_plans::PlanWords;
use cargo_plans::plan_steps::{Plan, Unit};
use cargo_workspaces::{Package, Workspace};
use feats_lines::{names_of, repeated_in};
use feats_tree::packages::{details_of, titles_of, titles_with};
use feats_tree::trees::Title;
use feats_why::{WhySettings, settings_of};
use feats_words::Format;
use plan_rows::Platform;
use plan_whys::links::{root_units, unit_links};
use shortest_routes::{Route, shortest_routes};
use std::alloc::{AllocError, Global};

/// Appends `number` if `unit` is one of package `package`.
fn push_if(
    found: &mut Vec<usize>,
    number: usize,
    unit: &Unit<'_>,
    package: usize,
) -> Result<(), AllocError>
    ensures { OnOk result (found.new.items ≡ found.old.items ++ (if (unit_text unit.now).number == «package» then number ∷ [] else [])) }
{
    if unit.package == package {
        found.push(number)?;
    }
    Ok(())
}

/// Returns the numbers of the units of package `package`, in all places.
fn units_of(alloc: Global, units: &[Unit<'_>], package: usize) -> Result<Vec<usize>, AllocError>
    ensures { IfOk result (λ found. found.items ≡ units_of_package «package» (map unit_text units.now)) }
{
    let mut found = Vec::new(alloc);
    for (number, unit) in units.iter().enumerate() {
        push_if(&mut found, number, unit, package)?;
    }
    Ok(found)
}

/// Returns the number of the package of each of `units`.
fn owners_of(alloc: Global, units: &[Unit<'_>]) -> Result<Vec<usize>, AllocError>
    ensures { IfOk result (λ owners. owners.items ≡ map (λ u. u.number) (map unit_text units.now)) }
{
    let mut owners = Vec::with_capacity(alloc, units.len())?;
    for unit in units {
        owners.push(unit.package)?;
    }
    Ok(owners)
}

/// Returns the shortest routes of the selected members to the units of package `package`.
fn routes_to(alloc: Global, plan: &Plan<'_>, package: usize) -> Result<Vec<Route>, AllocError>
    ensures { IfOk result (λ routes. spec.AreRoutesTo (plan_text plan.now) «package» (map route_text routes.items)) }
{
    let links = unit_links(alloc, plan)?;
    let roots = root_units(alloc, plan)?;
    let targets = units_of(alloc, plan.units(), package)?;
    let owners = owners_of(alloc, plan.units())?;
    shortest_routes(alloc, &links, &targets, &owners, &roots)
}

/// Returns what routes are shown by.
fn shown_by<'u, 'v, 'w, P: Platform>(
    settings: WhySettings<'u, P>,
    packages: &'u [Package<'v>],
    plan: &'u Plan<'w>,
    titles: &'u [Title<'u>],
) -> Shown<'u, 'v, 'w, P>
    ensures { shown_text P.holds result ≡ record { settings = settings_text P.holds settings.entry; packages = map package_text packages.entry.now; plan = plan_text plan.entry.now; titles = map title_text titles.entry.now } }
{
    Shown {
        settings,
        packages,
        plan,
        titles,
    }
}

/// Returns the text of `routes`.
fn text_of<P: Platform>(
    alloc: Global,
    form: Format,
    shown: &Shown<'_, '_, '_, P>,
    routes: &[Route],
) -> Result<Vec<u8>, AllocError>
    ensures { IfOk result (λ text. text.items ≡ spec.text_of form (shown_text P.holds shown.now) (map route_text routes.now)) }
{
    match form {
        Format::Text => {
            let versions = names_of(alloc, shown.packages)?;
            let repeated = repeated_in(alloc, &versions)?;
            Ok(route_lines(alloc, &repeated, shown, routes)?.into_bytes())
        }
        Format::Json => route_objects(alloc, shown, routes),
    }
}

/// Returns a shortest route to package `package` for each selected member that leads to it in `plan`, which is that of `words`, in the order of
/// the ids: as text or as JSON objects. `names` are those of the target platforms. The text is empty if no member leads to the package, as if
/// it isn't built. Returns an error only if out of memory.
pub fn routes_text<P: Platform>(
    alloc: Global,
    form: Format,
    names: &[&str],
    workspace: &Workspace<'_>,
    words: &PlanWords<'_, '_, P>,
    plan: &Plan<'_>,
    package: usize,
) -> Result<Vec<u8>, AllocError>
    ensures { IfOk result (λ text. spec.IsRoutesText form (texts names.now) (workspace_text workspace.now) (words_text P.holds words.now) (plan_text plan.now) «package» text.items) }
{
    let routes = routes_to(alloc, plan, package)?;
    let packages = workspace.packages();
    let unit_titles = titles_of(alloc, names, packages, plan.units())?;
    let details = details_of(alloc, names, packages, plan.units())?;
    let titles = titles_with(alloc, &unit_titles, &details)?;
    let shown = shown_by(settings_of(words), packages, plan, &titles);
    text_of(alloc, form, &shown, &routes)
}
