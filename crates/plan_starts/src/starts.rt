//! The packages that start, and where.
ghost use Rattle.std.specs.Prelude.{◌≡◌, ◌<◌, ◌&&◌, IfOk, IsTrue, None, if◌then◌else◌, length, map, nat_lt, true};
ghost use Rattle.std.specs.List.{list_all};
ghost use Rattle.digraphs.specs.Bits.{has};
ghost use Rattle.cargo_workspaces.specs.Views.{package_text};
ghost use Rattle.plan_rows.specs.Tables.{each_from};
ghost use Rattle.plan_starts.specs.Lists.{first_from};
ghost use Rattle.plan_starts.specs.Starts as spec;
ghost use Rattle.plan_starts.specs.Starts.{starts_on_host};
ghost use Rattle.plan_starts.specs.StartViews.{starts_text};
ghost use Rattle.plan_starts.specs.TargetViews.{rules_text};
ghost use Rattle.plan_starts.specs.Targets as targets;

use crate::marks::marks_of;
use crate::package_visit::PackageVisit;
use crate::targets::{TargetRules, builds, is_unmet};
use cargo_workspaces::Package;
use digraphs::IxBitSet;
use plan_rows::rules::{flag_of, host_side};
use plan_rows::{Platform, Side};
use std::alloc::{AllocError, Global};

/// The packages that start, as flags by their numbers.
#[derive(Drop)]
pub struct Starts {
    /// True if the package starts with a target that is a procedural macro: on the host.
    pub(crate) macros: Vec<bool>,
    /// True if it starts with another target: on each target platform.
    pub(crate) others: Vec<bool>,
    /// True if it starts on the host: with a procedural macro, or beside another target.
    pub(crate) hosts: Vec<bool>,
    /// As `macros`, for targets that are built with the dependencies for development.
    pub(crate) dev_macros: Vec<bool>,
    /// As `others`, for targets that are built with the dependencies for development.
    pub(crate) dev_others: Vec<bool>,
    /// The first target that is chosen by its name and requires a feature which isn't on: the number of its package, and its own there.
    pub(crate) unmet: Option<(usize, usize)>,
}

impl Starts {
    /// Returns the first target that is chosen by its name and requires a feature which isn't on: the number of its package, and its own
    /// there.
    pub fn unmet(&self) -> Option<(usize, usize)>
        ensures { result ≡ (starts_text self.now).unmet }
    {
        self.unmet
    }
}

/// Returns whether each package is one of `selected` and has a target that is built: a procedural macro, if `macros`, or else
/// another one; and, if `dev`, one with the dependencies for development.
fn started<P: Platform>(
    alloc: Global,
    rules: &TargetRules<'_, '_, '_, '_, P>,
    selected: &IxBitSet,
    dev: bool,
    macros: bool,
) -> Result<Vec<bool>, AllocError>
    requires { length selected.now ≡ length rules.now.packages.now }
    ensures { IfOk result (λ flags. flags.items ≡ each_from (λ p x. has selected.now p && targets.builds (rules_text P.holds rules.now) dev macros p x) 0 (map package_text rules.now.packages.now)) }
{
    let packages = rules.packages;
    let mut flags = Vec::with_capacity(alloc, packages.len())?;
    for (ix, package) in packages.iter().enumerate() {
        flags.push(selected.contains(ix) && builds(alloc, rules, dev, macros, ix, package)?)?;
    }
    Ok(flags)
}

/// Returns whether each package starts on the host.
fn hosts_of(
    alloc: Global,
    packages: &[Package<'_>],
    macros: &[bool],
    others: &[bool],
) -> Result<Vec<bool>, AllocError>
    ensures { IfOk result (λ flags. flags.items ≡ each_from (starts_on_host macros.now others.now) 0 (map package_text packages.now)) }
{
    let mut flags = Vec::with_capacity(alloc, packages.len())?;
    for (ix, package) in packages.iter().enumerate() {
        flags.push(flag_of(macros, ix) || flag_of(others, ix) && package.is_proc_macro())?;
    }
    Ok(flags)
}

/// Returns the first target of package `ix` that is chosen by its name and requires a feature which isn't on.
fn unmet_target<P: Platform>(
    alloc: Global,
    rules: &TargetRules<'_, '_, '_, '_, P>,
    ix: usize,
    package: &Package<'_>,
) -> Result<Option<(usize, usize)>, AllocError>
    ensures { IfOk result (λ found. found ≡ first_from (spec.unmet_target (rules_text P.holds rules.now) ix (package_text «package».now)) 0 (package_text «package».now).targets) }
{
    for (number, target) in package.targets.iter().enumerate() {
        if is_unmet(alloc, rules, ix, package, target)? {
            return Ok(Some((ix, number)));
        }
    }
    Ok(None)
}

/// Returns the first such target of package `ix`, if the package is one of `selected`.
fn unmet_at<P: Platform>(
    alloc: Global,
    rules: &TargetRules<'_, '_, '_, '_, P>,
    selected: &IxBitSet,
    ix: usize,
    package: &Package<'_>,
) -> Result<Option<(usize, usize)>, AllocError>
    requires { ix < length selected.now }
    ensures { IfOk result (λ found. found ≡ (if has selected.now ix then first_from (spec.unmet_target (rules_text P.holds rules.now) ix (package_text «package».now)) 0 (package_text «package».now).targets else None)) }
{
    if selected.contains(ix) {
        unmet_target(alloc, rules, ix, package)
    } else {
        Ok(None)
    }
}

/// Returns the first such target of the `selected` packages.
fn first_unmet<P: Platform>(
    alloc: Global,
    rules: &TargetRules<'_, '_, '_, '_, P>,
    selected: &IxBitSet,
) -> Result<Option<(usize, usize)>, AllocError>
    requires { length selected.now ≡ length rules.now.packages.now }
    ensures { IfOk result (λ found. found ≡ first_from (λ p x. if has selected.now p then first_from (spec.unmet_target (rules_text P.holds rules.now) p x) 0 x.targets else None) 0 (map package_text rules.now.packages.now)) }
{
    for (ix, package) in rules.packages.iter().enumerate() {
        if let Some(found) = unmet_at(alloc, rules, selected, ix, package)? {
            return Ok(Some(found));
        }
    }
    Ok(None)
}

/// Returns which packages start, and where: those of `selected` with a target that is built by `rules`.
pub fn starts_of<P: Platform>(
    alloc: Global,
    rules: &TargetRules<'_, '_, '_, '_, P>,
    selected: &[usize],
) -> Result<Starts, AllocError>
    requires { IsTrue (list_all (λ n. nat_lt n (length rules.now.packages.now)) selected.now) }
    ensures { IfOk result (λ starts. starts_text starts ≡ spec.starts_of (rules_text P.holds rules.now) selected.now) }
{
    let marks = marks_of(alloc, rules.packages.len(), selected)?;
    let macros = started(alloc, rules, &marks, false, true)?;
    let others = started(alloc, rules, &marks, false, false)?;
    let hosts = hosts_of(alloc, rules.packages, &macros, &others)?;
    let dev_macros = started(alloc, rules, &marks, true, true)?;
    let dev_others = started(alloc, rules, &marks, true, false)?;
    let unmet = first_unmet(alloc, rules, &marks)?;
    Ok(Starts {
        macros,
        others,
        hosts,
        dev_macros,
        dev_others,
        unmet,
    })
}

/// Returns the side on which package `ix` starts and isn't on, if there is one.
fn missing_side(split: bool, on: &PackageVisit, starts: &Starts, ix: usize) -> Option<Side>
    ensures { result ≡ spec.missing_side split on.now (starts_text starts.now) ix }
{
    let host = host_side(split);
    if flag_of(&starts.macros, ix) && !on.has_package(host, ix) {
        Some(host)
    } else if flag_of(&starts.others, ix) && !on.has_package(Side::Target, ix) {
        Some(Side::Target)
    } else {
        None
    }
}

/// Returns the first of `packages` that starts on a side where it isn't on, with that side. `on` is the visit of step `on`.
pub fn first_missing(
    split: bool,
    on: &PackageVisit,
    starts: &Starts,
    packages: &[Package<'_>],
) -> Option<(usize, Side)>
    ensures { result ≡ spec.first_missing split on.now (starts_text starts.now) (map package_text packages.now) }
{
    for (ix, _) in packages.iter().enumerate() {
        if let Some(side) = missing_side(split, on, starts, ix) {
            return Some((ix, side));
        }
    }
    None
}
