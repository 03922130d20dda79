//! The spots that are built, and those that are on and not built.
ghost use Rattle.std.specs.Prelude.{◌≡◌, IfOk, map, string_bytes};
ghost use Rattle.cargo_plans.specs.built_parts.BuiltViews.{is_built_in, script_in, state_in};
ghost use Rattle.cargo_workspaces.specs.WorkspaceView.{workspace_text};
ghost use Rattle.cargo_plans.specs.WordsView.{words_text};
ghost use Rattle.plan_rows.specs.platforms.HeldSpecs.{holds_on};
ghost use Rattle.plan_whys.specs.StepViews.{spot_text};
ghost use Rattle.feats_why.specs.Unbuilt.{unbuilt_text};
ghost use Rattle.feats_answers.specs.BuiltSpots as spec;

use cargo_plans::PlanWords;
use cargo_plans::built_parts::{BuiltParts, LackingScripts, PartState};
use cargo_workspaces::Workspace;
use feats_why::{UnbuiltSpot, unbuilt_lines};
use feats_words::Format;
use plan_rows::platforms::HeldSpecs;
use plan_whys::Spot;
use std::alloc::{AllocError, Global};

/// Returns those of `spots` whose state is `wanted`.
pub(crate) fn those_in<'w>(
    alloc: Global,
    parts: &BuiltParts<'_>,
    wanted: PartState,
    spots: &[Spot<'w>],
) -> Result<Vec<Spot<'w>>, AllocError>
    ensures { IfOk result (λ found. map spot_text found.items ≡ spec.spots_in (state_in parts.now) wanted (map spot_text spots.now)) }
{
    let mut found = Vec::new(alloc);
    for spot in spots {
        if parts.state(spot.side, spot.package, spot.label) == wanted {
            found.push(*spot)?;
        }
    }
    Ok(found)
}

/// Returns `spots` with the packages that lack a build script for theirs.
fn with_scripts<'w>(
    alloc: Global,
    scripts: &LackingScripts,
    spots: &[Spot<'w>],
) -> Result<Vec<UnbuiltSpot<'w>>, AllocError>
    ensures { IfOk result (λ list. map unbuilt_text list.items ≡ map (spec.with_script (script_in scripts.now)) (map spot_text spots.now)) }
{
    let mut list = Vec::with_capacity(alloc, spots.len())?;
    for spot in spots {
        list.push(UnbuiltSpot {
            spot: *spot,
            lacking: scripts.of_package(spot.package),
        })?;
    }
    Ok(list)
}

/// Returns the lines about `unbuilt`, which are on and not built by the plan with the parts `parts`.
fn lines_of(
    alloc: Global,
    workspace: &Workspace<'_>,
    words: &PlanWords<'_, '_, HeldSpecs<'_>>,
    parts: &BuiltParts<'_>,
    unbuilt: &[Spot<'_>],
) -> Result<String, AllocError>
    ensures { IfOk result (λ text. string_bytes text ≡ spec.lines_of (workspace_text workspace.now).packages (words_text holds_on words.now) (is_built_in parts.now) (map spot_text unbuilt.now)) }
{
    if let [] = unbuilt {
        return Ok(String::new(alloc));
    }
    let scripts = LackingScripts::of_parts(alloc, workspace, words.host, parts)?;
    let list = with_scripts(alloc, &scripts, unbuilt)?;
    unbuilt_lines(alloc, workspace, words.selection.split, &list)
}

/// Returns the lines about those of `spots` that are on and not built by the plan with the parts `parts`. JSON has none.
pub(crate) fn unbuilt_text_of(
    alloc: Global,
    format: Format,
    workspace: &Workspace<'_>,
    words: &PlanWords<'_, '_, HeldSpecs<'_>>,
    parts: &BuiltParts<'_>,
    spots: &[Spot<'_>],
) -> Result<Vec<u8>, AllocError>
    ensures { IfOk result (λ text. text.items ≡ spec.unbuilt_text_of format (workspace_text workspace.now).packages (words_text holds_on words.now) (state_in parts.now) (is_built_in parts.now) (map spot_text spots.now)) }
{
    match format {
        Format::Text => {
            let unbuilt = those_in(alloc, parts, PartState::Unbuilt, spots)?;
            Ok(lines_of(alloc, workspace, words, parts, &unbuilt)?.into_bytes())
        }
        Format::Json => Ok(Vec::new(alloc)),
    }
}
