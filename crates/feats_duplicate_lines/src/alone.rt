//! The lines about the plans of single members.
ghost use Rattle.std.specs.Prelude.{◌≡◌, ◌++◌, OnOk, map, flat_map};
ghost use Rattle.cargo_workspaces.specs.Views.{package_text, texts};
ghost use Rattle.feats_duplicates.specs.Views.{alone_text, member_unit_text};
ghost use Rattle.feats_duplicates.specs.DisagreementViews.{disagreement_text};
ghost use Rattle.feats_duplicate_lines.specs.Shown as spec;
ghost use Rattle.feats_duplicate_lines.specs.Views.{shown_text};

use crate::place_names::place_name;
use crate::shown::{Shown, package_at, push_shown};
use cargo_workspaces::Package;
use feats_duplicates::{
    Alone, Disagreement, MemberUnit, is_agreed, is_from_default_registry, joined_features,
};
use std::alloc::{AllocError, Global};

/// Appends the line of `package`, as `row` builds it for `place`.
fn push_row<'u, 'v, 'w>(
    shown: &mut Vec<Shown<'u, 'v, 'w>>,
    packages: &'u [Package<'v>],
    place: &'u str,
    package: &'u Package<'v>,
    row: MemberUnit<'u, 'w>,
) -> Result<(), AllocError>
    ensures { OnOk result (map shown_text shown.new.items ≡ map shown_text shown.old.items ++ spec.row_at (map package_text packages.now) place.now (package_text «package».now) (member_unit_text row.entry)) }
{
    match package_at(packages, row.member) {
        Some(member) => push_shown(
            shown,
            Shown::Alone {
                package,
                place,
                member,
                features: &row.unit.features,
            },
        ),
        None => Ok(()),
    }
}

/// Appends the lines of `package`, as each of `rows` builds it for `place`.
fn push_rows<'u, 'v, 'w>(
    shown: &mut Vec<Shown<'u, 'v, 'w>>,
    packages: &'u [Package<'v>],
    place: &'u str,
    package: &'u Package<'v>,
    rows: &[MemberUnit<'u, 'w>],
) -> Result<(), AllocError>
    ensures { OnOk result (map shown_text shown.new.items ≡ map shown_text shown.old.items ++ flat_map (spec.row_at (map package_text packages.now) place.now (package_text «package».now)) (map member_unit_text rows.now)) }
{
    for row in rows {
        push_row(shown, packages, place, package, *row)?;
    }
    Ok(())
}

/// Appends the line with the features that `package` has in one of `rows`, if it is from the default registry. `agrees` is whether the
/// members agree with the line.
fn push_joined<'u, 'v, 'w>(
    alloc: Global,
    shown: &mut Vec<Shown<'u, 'v, 'w>>,
    place: &'u str,
    package: &'u Package<'v>,
    rows: &[MemberUnit<'u, 'w>],
    agrees: bool,
) -> Result<(), AllocError>
    ensures { OnOk result (map shown_text shown.new.items ≡ map shown_text shown.old.items ++ spec.joined_at place.now (package_text «package».now) (map member_unit_text rows.now) agrees) }
{
    if is_from_default_registry(package) {
        shown.push(Shown::Joined {
            package,
            place,
            features: joined_features(alloc, package, rows)?,
            agrees,
        })?;
    }
    Ok(())
}

/// Appends the lines of `package`, which `rows` build for `place`. `agrees` is whether their members agree once they have got lines.
fn push_group<'u, 'v, 'w>(
    alloc: Global,
    shown: &mut Vec<Shown<'u, 'v, 'w>>,
    packages: &'u [Package<'v>],
    place: &'u str,
    package: &'u Package<'v>,
    rows: &[MemberUnit<'u, 'w>],
    agrees: bool,
) -> Result<(), AllocError>
    ensures { OnOk result (map shown_text shown.new.items ≡ map shown_text shown.old.items ++ spec.alone_lines (map package_text packages.now) place.now (map member_unit_text rows.now) agrees (package_text «package».now)) }
{
    push_rows(shown, packages, place, package, rows)?;
    push_joined(alloc, shown, place, package, rows, agrees)
}

/// Appends the lines of `alone`.
fn push_one<'u, 'v, 'w>(
    alloc: Global,
    shown: &mut Vec<Shown<'u, 'v, 'w>>,
    names: &[&'u str],
    packages: &'u [Package<'v>],
    disagreements: &[Disagreement],
    alone: &Alone<'u, 'w>,
) -> Result<(), AllocError>
    ensures { OnOk result (map shown_text shown.new.items ≡ map shown_text shown.old.items ++ spec.alone_of (texts names.now) (map package_text packages.now) (map disagreement_text disagreements.now) (alone_text alone.now)) }
{
    let agrees = is_agreed(disagreements, alone);
    let place = place_name(names, alone.place);
    match package_at(packages, alone.package) {
        Some(package) => push_group(alloc, shown, packages, place, package, &alone.units, agrees),
        None => Ok(()),
    }
}

/// Appends the lines of each of `list`.
pub(crate) fn push_alone<'u, 'v, 'w>(
    alloc: Global,
    shown: &mut Vec<Shown<'u, 'v, 'w>>,
    names: &[&'u str],
    packages: &'u [Package<'v>],
    disagreements: &[Disagreement],
    list: &[Alone<'u, 'w>],
) -> Result<(), AllocError>
    ensures { OnOk result (map shown_text shown.new.items ≡ map shown_text shown.old.items ++ flat_map (spec.alone_of (texts names.now) (map package_text packages.now) (map disagreement_text disagreements.now)) (map alone_text list.now)) }
{
    for alone in list {
        push_one(alloc, shown, names, packages, disagreements, alone)?;
    }
    Ok(())
}
