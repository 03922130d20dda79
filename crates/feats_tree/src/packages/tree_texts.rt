//! The text of trees.
ghost use Rattle.std.specs.Prelude.{◌≡◌, ◌++◌, IfOk, map, string_bytes};
ghost use Rattle.cargo_workspaces.specs.Views.{package_text, texts};
ghost use Rattle.feats_tree.specs.trees.Branches.{AreTrees};
ghost use Rattle.feats_tree.specs.trees.Titles.{detail_text, title_text};
ghost use Rattle.cargo_plans.specs.plan_units.UnitViews.{unit_text};
ghost use Rattle.feats_tree.specs.packages.Titles.{titles_with as titles_by, unit_titles};
ghost use Rattle.feats_tree.specs.packages.Trees as spec;

use crate::packages::details::{details_of, titles_with};
use crate::packages::titles::titles_of;
use crate::trees::{
    Branch, Detail, Title, branch_lines, branch_objects, branches, limit_of, with_cut_line,
    with_cut_object,
};
use cargo_plans::plan_steps::Unit;
use cargo_workspaces::Package;
use feats_words::Format;
use std::alloc::{AllocError, Global};

/// Returns the text of `branches`.
fn branches_text(
    alloc: Global,
    form: Format,
    branches: &[Branch],
    titles: &[Title<'_>],
) -> Result<Vec<u8>, AllocError>
    requires { AreTrees branches.now }
    ensures { IfOk result (λ text. text.items ≡ spec.branches_text form (map title_text titles.now) branches.now) }
{
    match form {
        Format::Text => Ok(branch_lines(alloc, branches, titles)?.into_bytes()),
        Format::Json => branch_objects(alloc, branches, titles),
    }
}

/// Returns `text` with the line that says that the trees go on below the greatest depth.
fn with_cut(form: Format, text: Vec<u8>) -> Result<Vec<u8>, AllocError>
    ensures { IfOk result (λ new. new.items ≡ text.items ++ spec.cut_text form) }
{
    match form {
        Format::Text => with_cut_line(text),
        Format::Json => with_cut_object(text),
    }
}

/// Returns `text`. If `limit` is `None` and the trees are cut, the line or the object that says so is appended.
fn with_end(
    form: Format,
    text: Vec<u8>,
    limit: Option<usize>,
    is_cut: bool,
) -> Result<Vec<u8>, AllocError>
    ensures { IfOk result (λ new. new.items ≡ text.items ++ spec.end_text form limit is_cut) }
{
    match limit {
        Some(_) => Ok(text),
        None => {
            if is_cut {
                with_cut(form, text)
            } else {
                Ok(text)
            }
        }
    }
}

/// Returns the text of the trees of `roots`.
fn tree_text(
    alloc: Global,
    form: Format,
    links: &[(usize, usize)],
    roots: &[usize],
    limit: Option<usize>,
    titles: &[Title<'_>],
) -> Result<Vec<u8>, AllocError>
    ensures { IfOk result (λ text. spec.IsTreeText form links.now roots.now limit (map title_text titles.now) text.items) }
{
    let trees = branches(alloc, links, roots, Some(limit_of(limit)))?;
    let text = branches_text(alloc, form, &trees.branches, titles)?;
    with_end(form, text, limit, trees.is_cut)
}

/// Returns the trees of `roots` over `links`, as text or as JSON objects. Node `k` has the title and the detail with number `k`. `limit`
/// is the greatest depth that is shown, where roots have 0. Without it the greatest depth is 1,000, and a last line or object says if that
/// hides links. Returns an error only if out of memory.
pub fn titled_text(
    alloc: Global,
    form: Format,
    links: &[(usize, usize)],
    roots: &[usize],
    limit: Option<usize>,
    titles: &[String],
    details: &[Detail<'_>],
) -> Result<Vec<u8>, AllocError>
    ensures { IfOk result (λ text. spec.IsTreeText form links.now roots.now limit (titles_by (map string_bytes titles.now) (map detail_text details.now)) text.items) }
{
    let titles = titles_with(alloc, titles, details)?;
    tree_text(alloc, form, links, roots, limit, &titles)
}

/// What is shown of units.
#[derive(Clone, Copy)]
pub(crate) struct UnitTitles<'u, 'v, 'w> {
    /// The names of the target platforms.
    pub(crate) names: &'u [&'u str],
    pub(crate) packages: &'u [Package<'v>],
    pub(crate) units: &'u [Unit<'w>],
}

/// Returns the text of the trees of `roots`, whose nodes are units.
pub(crate) fn unit_tree(
    alloc: Global,
    form: Format,
    links: &[(usize, usize)],
    roots: &[usize],
    limit: Option<usize>,
    shown: UnitTitles<'_, '_, '_>,
) -> Result<Vec<u8>, AllocError>
    ensures { IfOk result (λ text. spec.IsTreeText form links.now roots.now limit (unit_titles (texts shown.entry.names.now) (map package_text shown.entry.packages.now) (map unit_text shown.entry.units.now)) text.items) }
{
    let titles = titles_of(alloc, shown.names, shown.packages, shown.units)?;
    let details = details_of(alloc, shown.names, shown.packages, shown.units)?;
    titled_text(alloc, form, links, roots, limit, &titles, &details)
}
