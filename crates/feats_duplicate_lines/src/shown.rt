//! What a line shows.
ghost use Rattle.std.specs.Prelude.{◌≡◌, ◌++◌, ◌∷◌, [], OnOk, map, option_map, slice_get};
ghost use Rattle.cargo_workspaces.specs.Views.{package_text};
ghost use Rattle.feats_duplicate_lines.specs.Views.{shown_text};

use cargo_workspaces::Package;
use std::alloc::AllocError;

/// A package that depends on another.
#[derive(Clone, Copy)]
pub struct Dependent<'u, 'v> {
    pub package: &'u Package<'v>,
}

/// A line about a package that is built several times.
#[derive(Drop)]
pub enum Shown<'u, 'v, 'w> {
    /// One of several packages of one name that are built, and those that depend on it.
    Version {
        package: &'u Package<'v>,
        dependents: Vec<Dependent<'u, 'v>>,
    },
    /// A package in one of several places.
    InPlace {
        package: &'u Package<'v>,
        place: &'u str,
        features: &'u [&'w str],
    },
    /// A package for a place where it has different features in the plans of single members, in the plan of `member`.
    Alone {
        package: &'u Package<'v>,
        place: &'u str,
        member: &'u Package<'v>,
        features: &'u [&'w str],
    },
    /// The features of such a package in all these plans together, and whether the members agree once they have got a line with these.
    Joined {
        package: &'u Package<'v>,
        place: &'u str,
        features: Vec<&'u str>,
        agrees: bool,
    },
    /// A member that has no plan alone, with the message why.
    NotPlanned {
        member: &'u Package<'v>,
        message: &'u str,
    },
}

/// Returns the package with the number `number`, if there is one.
pub(crate) fn package_at<'u, 'v>(
    packages: &'u [Package<'v>],
    number: usize,
) -> Option<&'u Package<'v>>
    ensures { option_map (λ p. package_text p.now) result ≡ slice_get (map package_text packages.now) number }
{
    packages.get(number)
}

/// Appends `one`.
pub(crate) fn push_shown<'u, 'v, 'w>(
    shown: &mut Vec<Shown<'u, 'v, 'w>>,
    one: Shown<'u, 'v, 'w>,
) -> Result<(), AllocError>
    ensures { OnOk result (map shown_text shown.new.items ≡ map shown_text shown.old.items ++ shown_text one.entry ∷ []) }
{
    shown.push(one)?;
    Ok(())
}
