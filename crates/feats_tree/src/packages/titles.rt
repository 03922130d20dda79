//! The titles of the packages that a plan builds.
ghost use Rattle.std.specs.Prelude.{◌≡◌, ◌++◌, IfOk, OnOk, map, option_map, slice_get, string_bytes};
ghost use Rattle.cargo_workspaces.specs.Views.{package_text, texts};
ghost use Rattle.feats_lines.specs.Lines.{name_of};
ghost use Rattle.feats_lines.specs.Repeats.{HasRepeated};
ghost use Rattle.cargo_plans.specs.plan_units.UnitViews.{unit_text};
ghost use Rattle.feats_tree.specs.packages.Titles as spec;

use cargo_plans::plan_steps::{Place, Unit};
use cargo_workspaces::Package;
use feats_lines::{label_of, names_of, repeated_in};
use std::alloc::{AllocError, Global};
use std::collections::BTreeSet;

/// Appends ` (NAME)`, if there is a name.
fn push_name(text: &mut String, name: Option<&&str>) -> Result<(), AllocError>
    ensures { OnOk result (string_bytes text.new ≡ string_bytes text.old ++ spec.named_mark (option_map (λ n. n.now.now) name.entry)) }
{
    match name {
        Some(name) => {
            text.push_str(" (")?;
            text.push_str(name)?;
            text.push_str(")")
        }
        None => Ok(()),
    }
}

/// Appends the mark of `place`. `names` are those of the target platforms.
fn push_place(text: &mut String, names: &[&str], place: Place) -> Result<(), AllocError>
    ensures { OnOk result (string_bytes text.new ≡ string_bytes text.old ++ spec.place_mark (texts names.now) place) }
{
    match place {
        Place::Host => text.push_str(" (host)"),
        Place::Target(number) => {
            if 1 < names.len() {
                push_name(text, names.get(number))
            } else {
                Ok(())
            }
        }
    }
}

/// Returns the title of `unit`, of these packages. `repeated` are the names with versions that several of them have.
fn unit_title(
    alloc: Global,
    repeated: &BTreeSet<&str>,
    names: &[&str],
    packages: &[Package<'_>],
    unit: &Unit<'_>,
) -> Result<String, AllocError>
    requires { HasRepeated repeated.now (map name_of (map package_text packages.now)) }
    ensures { IfOk result (λ title. string_bytes title ≡ spec.unit_title (texts names.now) (map package_text packages.now) (unit_text unit.now)) }
{
    match packages.get(unit.package) {
        Some(package) => {
            let mut title = label_of(alloc, repeated, package)?;
            push_place(&mut title, names, unit.place)?;
            Ok(title)
        }
        None => Ok(String::new(alloc)),
    }
}

/// Returns the title of each of `units`.
fn titles_by(
    alloc: Global,
    repeated: &BTreeSet<&str>,
    names: &[&str],
    packages: &[Package<'_>],
    units: &[Unit<'_>],
) -> Result<Vec<String>, AllocError>
    requires { HasRepeated repeated.now (map name_of (map package_text packages.now)) }
    ensures { IfOk result (λ titles. map string_bytes titles.items ≡ map (spec.unit_title (texts names.now) (map package_text packages.now)) (map unit_text units.now)) }
{
    let mut titles = Vec::with_capacity(alloc, units.len())?;
    for unit in units {
        titles.push(unit_title(alloc, repeated, names, packages, unit)?)?;
    }
    Ok(titles)
}

/// Returns the title of each of `units`: the label of its package, and its place. `names` are those of the target platforms.
pub fn titles_of(
    alloc: Global,
    names: &[&str],
    packages: &[Package<'_>],
    units: &[Unit<'_>],
) -> Result<Vec<String>, AllocError>
    ensures { IfOk result (λ titles. map string_bytes titles.items ≡ map (spec.unit_title (texts names.now) (map package_text packages.now)) (map unit_text units.now)) }
{
    let versions = names_of(alloc, packages)?;
    let repeated = repeated_in(alloc, &versions)?;
    titles_by(alloc, &repeated, names, packages, units)
}
