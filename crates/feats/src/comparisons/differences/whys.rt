//! Why parts and features come: the last step of each `why`.
ghost use Rattle.std.specs.Prelude.{◌≡◌, ◌++◌, IfOk, OnOk, flat_map, map, string_bytes};
ghost use Rattle.cargo_plans.specs.Plans.{IsPlanOf};
ghost use Rattle.feature_labels.specs.Names.{label_of};
ghost use Rattle.feats.specs.comparisons.differences.LastSteps as last_spec;
ghost use Rattle.feats.specs.comparisons.differences.Views.{build_text, whys_text};
ghost use Rattle.feats.specs.comparisons.differences.Whys as spec;
ghost use Rattle.feats_diff.specs.changes.Views.{change_text, differences_text, part_text};
ghost use Rattle.plan_whys.specs.StepViews.{last_text, spot_text, why_text};
ghost use Rattle.feats_why.specs.Views.{steps_text};

use crate::comparisons::differences::builds::Build;
use cargo_plans::{Place, Side};
use feats_diff::changes::{Change, Differences, Part};
use feats_why::{each_why_lines, settings_of};
use feature_labels::FeatureLabel;
use plan_whys::{Spot, WhyStep, last_step_each};
use std::alloc::{AllocError, Global};
use std::slice;

/// The last steps of each `why`.
#[derive(Drop)]
pub(crate) struct Whys {
    /// Those of the parts that come.
    pub(crate) parts: Vec<String>,
    /// Those of the features that come in parts whose version or source changes.
    pub(crate) moved: Vec<String>,
    /// Those of the features that come in other parts.
    pub(crate) kept: Vec<String>,
}

/// Returns the side whose features `place` has.
fn side_at(split: bool, place: Place) -> Side
    ensures { result ≡ spec.side_at split place }
{
    match place {
        Place::Host => { if split { Side::Host } else { Side::Target } }
        Place::Target(_) => Side::Target,
    }
}

/// Returns the spot of `label` of `part`, which is a unit of the plan.
fn spot_of<'l>(
    build: &Build<'_, '_, '_, '_, '_>,
    part: &Part<'_, '_, '_>,
    label: FeatureLabel<'l>,
) -> Spot<'l>
    ensures { spot_text result ≡ spec.spot_of (build_text build.now) (part_text part.now) (label_of label.entry) }
{
    match build.plan.units().get(part.unit) {
        Some(unit) => Spot {
            side: side_at(build.words.selection.split, unit.place),
            package: unit.package,
            label,
        },
        None => Spot {
            side: Side::Target,
            package: 0,
            label,
        },
    }
}

/// Returns the spots of `parts`.
fn part_spots(
    alloc: Global,
    build: &Build<'_, '_, '_, '_, '_>,
    parts: &[Part<'_, '_, '_>],
) -> Result<Vec<Spot<'static>>, AllocError>
    ensures { IfOk result (λ spots. map spot_text spots.items ≡ spec.part_spots (build_text build.now) (map part_text parts.now)) }
{
    let mut spots = Vec::with_capacity(alloc, parts.len())?;
    for part in parts {
        spots.push(spot_of(build, part, FeatureLabel::Base))?;
    }
    Ok(spots)
}

/// Appends the spots of the features that come in `change`.
fn push_spots<'w>(
    build: &Build<'_, '_, '_, '_, '_>,
    spots: &mut Vec<Spot<'w>>,
    change: &Change<'_, '_, 'w>,
) -> Result<(), AllocError>
    ensures { OnOk result (map spot_text spots.new.items ≡ map spot_text spots.old.items ++ spec.feature_spots (build_text build.now) (change_text change.now)) }
{
    for name in &change.comes {
        spots.push(spot_of(build, &change.new, FeatureLabel::Named(*name)))?;
    }
    Ok(())
}

/// Returns the spots of the features that come in `changes`.
fn feature_spots<'w>(
    alloc: Global,
    build: &Build<'_, '_, '_, '_, '_>,
    changes: &[Change<'_, '_, 'w>],
) -> Result<Vec<Spot<'w>>, AllocError>
    ensures { IfOk result (λ spots. map spot_text spots.items ≡ flat_map (spec.feature_spots (build_text build.now)) (map change_text changes.now)) }
{
    let mut spots = Vec::new(alloc);
    for change in changes {
        push_spots(build, &mut spots, change)?;
    }
    Ok(spots)
}

/// Returns `line` without the line feed at its end.
fn without_feed(line: &str) -> &str
    ensures { result.now ≡ spec.without_feed line.now }
{
    match line.strip_suffix('\n') {
        Some(front) => front,
        None => line,
    }
}

/// Returns copies of `lines` without the line feeds at their ends.
fn without_feeds(alloc: Global, lines: &[String]) -> Result<Vec<String>, AllocError>
    ensures { IfOk result (λ whys. map string_bytes whys.items ≡ map spec.without_feed (map string_bytes lines.now)) }
{
    let mut whys = Vec::with_capacity(alloc, lines.len())?;
    for line in lines {
        whys.push(String::from_str(alloc, without_feed(line.as_str()))?)?;
    }
    Ok(whys)
}

/// Returns `last` as a list; an empty one if there is no step.
fn list_of<'t, 'p>(last: &'t Option<WhyStep<'p>>) -> &'t [WhyStep<'p>]
    ensures { map why_text result.now ≡ last_spec.list_of (last_text last.now) }
{
    match last {
        Some(step) => slice::from_ref(step),
        None => &[],
    }
}

/// Returns each of `lasts` as a list.
fn lists_of<'t, 'p>(
    alloc: Global,
    lasts: &'t [Option<WhyStep<'p>>],
) -> Result<Vec<&'t [WhyStep<'p>]>, AllocError>
    ensures { IfOk result (λ lists. map steps_text lists.items ≡ map last_spec.list_of (map last_text lasts.now)) }
{
    let mut lists = Vec::with_capacity(alloc, lasts.len())?;
    for last in lasts {
        lists.push(list_of(last))?;
    }
    Ok(lists)
}

/// Returns the line of each of `lasts`, without its end.
fn lines_of(
    alloc: Global,
    build: &Build<'_, '_, '_, '_, '_>,
    lasts: &[Option<WhyStep<'_>>],
) -> Result<Vec<String>, AllocError>
    ensures { IfOk result (λ whys. map string_bytes whys.items ≡ map (last_spec.line_of (build_text build.now)) (map last_text lasts.now)) }
{
    let settings = settings_of(build.words);
    let lists = lists_of(alloc, lasts)?;
    let lines = each_why_lines(alloc, build.workspace, &settings, &lists)?;
    without_feeds(alloc, &lines)
}

/// Returns the last step of why each of `spots` is on, by one walk.
fn last_steps_of(
    alloc: Global,
    build: &Build<'_, '_, '_, '_, '_>,
    spots: &[Spot<'_>],
) -> Result<Vec<String>, AllocError>
    requires plan { IsPlanOf (build_text build.now).workspace (build_text build.now).words (build_text build.now).plan }
    ensures { IfOk result (λ whys. spec.AreWhys (build_text build.now) (map spot_text spots.now) (map string_bytes whys.items)) }
{
    let lasts = last_step_each(alloc, build.workspace, build.words, build.plan, spots)?;
    lines_of(alloc, build, &lasts)
}

/// Returns the last step of why each of `parts` is on.
fn part_whys(
    alloc: Global,
    build: &Build<'_, '_, '_, '_, '_>,
    parts: &[Part<'_, '_, '_>],
) -> Result<Vec<String>, AllocError>
    requires plan { IsPlanOf (build_text build.now).workspace (build_text build.now).words (build_text build.now).plan }
    ensures { IfOk result (λ whys. spec.AreWhys (build_text build.now) (spec.part_spots (build_text build.now) (map part_text parts.now)) (map string_bytes whys.items)) }
{
    let spots = part_spots(alloc, build, parts)?;
    last_steps_of(alloc, build, &spots)
}

/// Returns the last step of why each feature that comes in `changes` is on.
fn feature_whys(
    alloc: Global,
    build: &Build<'_, '_, '_, '_, '_>,
    changes: &[Change<'_, '_, '_>],
) -> Result<Vec<String>, AllocError>
    requires plan { IsPlanOf (build_text build.now).workspace (build_text build.now).words (build_text build.now).plan }
    ensures { IfOk result (λ whys. spec.AreWhys (build_text build.now) (flat_map (spec.feature_spots (build_text build.now)) (map change_text changes.now)) (map string_bytes whys.items)) }
{
    let spots = feature_spots(alloc, build, changes)?;
    last_steps_of(alloc, build, &spots)
}

/// Returns the last step of why each part and each feature of `differences` that comes is on.
pub(crate) fn whys_of(
    alloc: Global,
    build: &Build<'_, '_, '_, '_, '_>,
    differences: &Differences<'_, '_, '_>,
) -> Result<Whys, AllocError>
    requires plan { IsPlanOf (build_text build.now).workspace (build_text build.now).words (build_text build.now).plan }
    ensures { IfOk result (λ whys. spec.AreAllWhys (build_text build.now) (differences_text differences.now) (whys_text whys)) }
{
    let parts = part_whys(alloc, build, &differences.comes)?;
    let moved = feature_whys(alloc, build, &differences.moved)?;
    let kept = feature_whys(alloc, build, &differences.kept)?;
    Ok(Whys { parts, moved, kept })
}
