//! Edits with the places that lines show.
ghost use Rattle.std.specs.Prelude.{◌≡◌, ◌++◌, IfOk, OnOk, map, flat_map, option_map, slice_get};
ghost use Rattle.cargo_workspaces.specs.Views.{declaration_text, package_text};
ghost use Rattle.feats_slim.specs.edits.SlimViews.{slim_text};
ghost use Rattle.feats_slim.specs.answers.Shown as spec;
ghost use Rattle.feats_slim.specs.answers.Views.{shown_place_text, shown_text};
ghost use Rattle.cargo_manifests.specs.EditViews.{place_text};

use crate::edits::{EditPlace, Slim, Without};
use cargo_workspaces::{Declaration, Package};
use std::alloc::{AllocError, Global};

/// What an edit changes, as its line shows it.
#[derive(Clone, Copy)]
pub(crate) enum ShownPlace<'u, 'v> {
    /// A declaration of a package.
    Declared {
        package: &'u Package<'v>,
        declaration: &'u Declaration<'v>,
    },
    /// The entry of the table `[workspace.dependencies]` with this name.
    Inherited(&'u str),
}

/// An edit with the place that its line shows.
#[derive(Clone, Copy)]
pub(crate) struct Shown<'u, 'v> {
    pub(crate) place: ShownPlace<'u, 'v>,
    pub(crate) without: Without<'u>,
    /// The number of packages that fall away.
    pub(crate) packages: usize,
    /// The number of features that fall away.
    pub(crate) features: usize,
}

/// Returns package `number`, if there is one.
fn package_at<'u, 'v>(packages: &'u [Package<'v>], number: usize) -> Option<&'u Package<'v>>
    ensures { option_map (λ p. package_text p.now) result ≡ slice_get (map package_text packages.now) number }
{
    packages.get(number)
}

/// Returns declaration `number` of `package`, if there is one.
fn declaration_at<'u, 'v>(package: &'u Package<'v>, number: usize) -> Option<&'u Declaration<'v>>
    ensures { option_map (λ d. declaration_text d.now) result ≡ slice_get (package_text «package».now).declarations number }
{
    package.declarations.get(number)
}

/// Returns the place of declaration `number` of `package`, if there is one.
fn declared_in<'u, 'v>(number: usize, package: &'u Package<'v>) -> Option<ShownPlace<'u, 'v>>
    ensures { option_map shown_place_text result ≡ spec.declared_in number (package_text «package».now) }
{
    let declaration = declaration_at(package, number)?;
    Some(ShownPlace::Declared {
        package,
        declaration,
    })
}

/// Returns the place that a line about `place` shows. `packages` are those of the workspace; None if they don't have the declaration.
fn place_of<'u, 'v>(packages: &'u [Package<'v>], place: EditPlace<'u>) -> Option<ShownPlace<'u, 'v>>
    ensures { option_map shown_place_text result ≡ spec.place_of (map package_text packages.now) (place_text place.entry) }
{
    match place {
        EditPlace::Declaration {
            package,
            declaration,
        } => declared_in(declaration, package_at(packages, package)?),
        EditPlace::TableEntry(name) => Some(ShownPlace::Inherited(name)),
    }
}

/// Appends `slim` with `place`, if there is one.
fn push_at<'u, 'v>(
    shown: &mut Vec<Shown<'u, 'v>>,
    slim: &Slim<'u>,
    place: Option<ShownPlace<'u, 'v>>,
) -> Result<(), AllocError>
    ensures { OnOk result (map shown_text shown.new.items ≡ map shown_text shown.old.items ++ spec.shown_if (slim_text slim.now) (option_map shown_place_text place.entry)) }
{
    if let Some(place) = place {
        shown.push(Shown {
            place,
            without: slim.edit.without,
            packages: slim.packages,
            features: slim.features,
        })?;
    }
    Ok(())
}

/// Appends `slim` with its place. Appends nothing if `packages` don't have its declaration.
fn push_shown<'u, 'v>(
    shown: &mut Vec<Shown<'u, 'v>>,
    packages: &'u [Package<'v>],
    slim: &Slim<'u>,
) -> Result<(), AllocError>
    ensures { OnOk result (map shown_text shown.new.items ≡ map shown_text shown.old.items ++ spec.shown_of (map package_text packages.now) (slim_text slim.now)) }
{
    push_at(shown, slim, place_of(packages, slim.edit.place))
}

/// Returns `slims` with their places, without those whose declaration `packages` don't have.
pub(crate) fn all_shown<'u, 'v>(
    alloc: Global,
    packages: &'u [Package<'v>],
    slims: &[Slim<'u>],
) -> Result<Vec<Shown<'u, 'v>>, AllocError>
    ensures { IfOk result (λ shown. map shown_text shown.items ≡ spec.all_shown (map package_text packages.now) (map slim_text slims.now)) }
{
    let mut shown = Vec::new(alloc);
    for slim in slims {
        push_shown(&mut shown, packages, slim)?;
    }
    Ok(shown)
}
