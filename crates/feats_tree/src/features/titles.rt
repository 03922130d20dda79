//! The text of trees of spots.
ghost use Rattle.std.specs.Prelude.{◌≡◌, IfOk, map, option_map};
ghost use Rattle.cargo_workspaces.specs.Views.{package_text};
ghost use Rattle.cargo_workspaces.specs.WorkspaceView.{workspace_text};
ghost use Rattle.feature_labels.specs.Names.{label_of};
ghost use Rattle.feats_why.specs.Objects as names;
ghost use Rattle.feats_tree.specs.trees.Titles.{detail_text};
ghost use Rattle.feats_tree.specs.packages.Trees.{IsTreeText};
ghost use Rattle.plan_whys.specs.StepViews.{spot_text};
ghost use Rattle.feats_tree.specs.features.Titles as spec;

use crate::packages::{detail_at, titled_text};
use crate::trees::{At, Detail};
use cargo_workspaces::{Package, Workspace};
use feats_why::spot_labels;
use feats_words::Format;
use feature_labels::FeatureLabel;
use plan_whys::links::{Side, Spot};
use std::alloc::{AllocError, Global};

/// Returns the name of the feature that `label` is.
fn feature_name(label: FeatureLabel<'_>) -> Option<&str>
    ensures { option_map (λ t. t.now) result ≡ names.feature_name (label_of label.entry) }
{
    match label {
        FeatureLabel::Named(name) => Some(name),
        FeatureLabel::Base | FeatureLabel::OptionalDependency(_) => None,
    }
}

/// Returns the name of the optional dependency that `label` is.
fn dependency_name(label: FeatureLabel<'_>) -> Option<&str>
    ensures { option_map (λ t. t.now) result ≡ names.dependency_name (label_of label.entry) }
{
    match label {
        FeatureLabel::OptionalDependency(name) => Some(name),
        FeatureLabel::Base | FeatureLabel::Named(_) => None,
    }
}

/// Returns the word for `side`.
fn side_word(side: Side) -> &'static str
    ensures { result.now ≡ names.side_word side }
{
    match side {
        Side::Target => "target",
        Side::Host => "host",
    }
}

/// Returns what objects show of `spot`.
fn spot_detail<'p>(packages: &'p [Package<'_>], spot: Spot<'p>) -> Detail<'p>
    ensures { detail_text result ≡ spec.spot_detail (map package_text packages.now) (spot_text spot.entry) }
{
    let at = At::Part {
        feature: feature_name(spot.label),
        dependency: dependency_name(spot.label),
        side: side_word(spot.side),
    };
    detail_at(packages, spot.package, at)
}

/// Returns what objects show of each of `spots`.
fn details_of<'p>(
    alloc: Global,
    packages: &'p [Package<'_>],
    spots: &[Spot<'p>],
) -> Result<Vec<Detail<'p>>, AllocError>
    ensures { IfOk result (λ details. map detail_text details.items ≡ map (spec.spot_detail (map package_text packages.now)) (map spot_text spots.now)) }
{
    let mut details = Vec::with_capacity(alloc, spots.len())?;
    for spot in spots {
        details.push(spot_detail(packages, *spot))?;
    }
    Ok(details)
}

/// The spots of a tree, and what their titles are made from.
#[derive(Clone, Copy)]
pub(crate) struct Titled<'u, 'v, 'w> {
    /// True if ` (host)` follows the labels of spots on the host side.
    pub(crate) sides: bool,
    pub(crate) workspace: &'u Workspace<'v>,
    pub(crate) spots: &'u [Spot<'w>],
}

/// Returns the text of the trees of `roots`, whose nodes are spots.
pub(crate) fn spot_tree(
    alloc: Global,
    form: Format,
    links: &[(usize, usize)],
    roots: &[usize],
    limit: Option<usize>,
    titled: Titled<'_, '_, '_>,
) -> Result<Vec<u8>, AllocError>
    ensures { IfOk result (λ text. IsTreeText form links.now roots.now limit (spec.spot_titles (workspace_text titled.entry.workspace.now).packages titled.entry.sides (map spot_text titled.entry.spots.now)) text.items) }
{
    let titles = spot_labels(alloc, titled.workspace, titled.sides, titled.spots)?;
    let details = details_of(alloc, titled.workspace.packages(), titled.spots)?;
    titled_text(alloc, form, links, roots, limit, &titles, &details)
}
