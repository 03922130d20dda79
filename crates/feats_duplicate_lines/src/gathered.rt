//! The lines about the duplicates of a plan.
ghost use Rattle.std.specs.Prelude.{◌≡◌, ◌++◌, IfOk, map};
ghost use Rattle.cargo_workspaces.specs.Views.{package_text, texts};
ghost use Rattle.feats_duplicates.specs.DuplicatesView.{duplicates_text};
ghost use Rattle.feats_duplicates.specs.Views.{member_plan_text};
ghost use Rattle.feats_duplicates.specs.DisagreementViews.{disagreement_text};
ghost use Rattle.feats_duplicate_lines.specs.Shown as spec;
ghost use Rattle.feats_duplicate_lines.specs.Views.{shown_text};

use crate::alone::push_alone;
use crate::listed::{push_places, push_refusals, push_versions};
use crate::shown::Shown;
use cargo_workspaces::Package;
use feats_duplicates::{Disagreement, Duplicates, MemberPlan};
use std::alloc::{AllocError, Global};

/// Returns a line for each package in `found`, and for each of `plans` that isn't a plan: versions, places, what single members get,
/// and members without a plan. `packages` are those of the workspace, and the target platforms have the names `names`. `disagreements`
/// are the packages in `found` for which members still have different features after they have got lines for them.
pub fn all_shown<'u, 'v, 'w>(
    alloc: Global,
    names: &[&'u str],
    packages: &'u [Package<'v>],
    found: &Duplicates<'u, 'w>,
    disagreements: &[Disagreement],
    plans: &'u [MemberPlan<'w>],
) -> Result<Vec<Shown<'u, 'v, 'w>>, AllocError>
    ensures { IfOk result (λ shown. map shown_text shown.items ≡ spec.all_shown (texts names.now) (map package_text packages.now) (duplicates_text found.now) (map disagreement_text disagreements.now) (map member_plan_text plans.now)) }
{
    let mut shown = Vec::new(alloc);
    push_versions(alloc, &mut shown, packages, &found.versions)?;
    push_places(&mut shown, names, packages, &found.places)?;
    push_alone(
        alloc,
        &mut shown,
        names,
        packages,
        disagreements,
        &found.alone,
    )?;
    push_refusals(&mut shown, packages, plans)?;
    Ok(shown)
}
