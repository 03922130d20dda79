//! Parts that are off, and their titles.
ghost use Rattle.std.specs.Prelude.{◌≡◌, IfOk, map, string_bytes};
ghost use Rattle.cargo_workspaces.specs.WorkspaceView.{workspace_text};
ghost use Rattle.plan_rows.specs.declared.side.Side.TheVariants.{Target};
ghost use Rattle.plan_whys.specs.StepViews.{spot_text};
ghost use Rattle.feats_why_not.specs.PartView.{part_text};
ghost use Rattle.feats_why_not.specs.Parts as spec;

use cargo_workspaces::Workspace;
use feats_why::spot_labels;
use feature_labels::FeatureLabel;
use plan_rows::Side;
use plan_whys::Spot;
use std::alloc::{AllocError, Global};

/// A label of a package that is off.
#[derive(Clone, Copy)]
pub struct OffPart<'w> {
    /// The number of the package.
    pub package: usize,
    pub label: FeatureLabel<'w>,
}

/// Returns `part` on `side`.
pub(crate) fn spot_on(side: Side, part: OffPart<'_>) -> Spot<'_>
    ensures { spot_text result ≡ spec.spot_on side (part_text part.entry) }
{
    Spot {
        side,
        package: part.package,
        label: part.label,
    }
}

/// Returns each of `parts` on the target side.
fn target_spots<'w>(alloc: Global, parts: &[OffPart<'w>]) -> Result<Vec<Spot<'w>>, AllocError>
    ensures { IfOk result (λ spots. map spot_text spots.items ≡ map (spec.spot_on Target) (map part_text parts.now)) }
{
    let mut spots = Vec::with_capacity(alloc, parts.len())?;
    for part in parts {
        spots.push(spot_on(Side::Target, *part))?;
    }
    Ok(spots)
}

/// Returns the titles of `parts`.
pub(crate) fn titles_of(
    alloc: Global,
    workspace: &Workspace<'_>,
    parts: &[OffPart<'_>],
) -> Result<Vec<String>, AllocError>
    ensures { IfOk result (λ titles. map string_bytes titles.items ≡ map (spec.title_of (workspace_text workspace.now).packages) (map part_text parts.now)) }
{
    let spots = target_spots(alloc, parts)?;
    spot_labels(alloc, workspace, false, &spots)
}
