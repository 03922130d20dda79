//! The kinds and platforms for which a package is used.
ghost use Rattle.std.specs.Prelude.{◌≡◌, ◌||◌, Option, OnOk, false, option_map};
ghost use Rattle.json.specs.Value.{items_view};
ghost use Rattle.cargo_json.specs.Faults.{Text, Gives};
ghost use Rattle.workspace_documents.specs.Nodes.{uses_in};
ghost use Rattle.workspace_documents.specs.Packages.{UseText, same_platform, same_use};
ghost use Rattle.workspace_documents.specs.Views.{text_view, use_view, platforms_view, uses_view};

use crate::packages::{Use, use_of};
use cargo_json::{DocumentFault, Place};
use cargo_workspaces::Kind;
use json::Value;
use std::alloc::{AllocError, Global};
use std::collections::BTreeSet;

/// The platforms for which a package is used by builds of one kind.
#[derive(Drop)]
pub struct Platforms<'v> {
    /// Whether it is used on every platform.
    pub every: bool,
    /// The platforms that are named.
    pub named: BTreeSet<&'v str>,
}

/// The platforms for which a package is used, by the kinds of builds.
#[derive(Drop)]
pub struct Uses<'v> {
    pub normal: Platforms<'v>,
    pub build: Platforms<'v>,
    pub development: Platforms<'v>,
}

/// Returns no platform.
fn no_platforms<'v>(alloc: Global) -> Platforms<'v>
    ensures { (platform : Option Text) → platforms_view result platform ≡ false }
{
    Platforms {
        every: false,
        named: BTreeSet::new(alloc),
    }
}

/// Inserts `platform`; None is every platform. The only error is out of memory.
fn insert_platform<'v>(
    platforms: &mut Platforms<'v>,
    platform: Option<&'v str>,
) -> Result<(), AllocError>
    ensures { OnOk result ((asked : Option Text) → platforms_view platforms.new asked ≡ (same_platform (option_map text_view platform.entry) asked || platforms_view platforms.old asked)) }
{
    match platform {
        None => platforms.every = true,
        Some(name) => {
            let _is_new = platforms.named.insert(name)?;
        }
    }
    Ok(())
}

/// Returns whether `platforms` has `platform`; None is every platform.
fn has_platform(platforms: &Platforms<'_>, platform: Option<&str>) -> bool
    ensures { result ≡ platforms_view platforms.now (option_map text_view platform.entry) }
{
    match platform {
        None => platforms.every,
        Some(name) => platforms.named.contains(name),
    }
}

/// Inserts `added` into `uses`. The only error is out of memory.
fn insert_use<'v>(uses: &mut Uses<'v>, added: Use<'v>) -> Result<(), AllocError>
    ensures { OnOk result ((asked : UseText) → uses_view uses.new asked ≡ (same_use (use_view added.entry) asked || uses_view uses.old asked)) }
{
    match added.kind {
        Kind::Normal => insert_platform(&mut uses.normal, added.platform),
        Kind::Build => insert_platform(&mut uses.build, added.platform),
        Kind::Development => insert_platform(&mut uses.development, added.platform),
    }
}

/// Returns whether `uses` has `kind` with `platform`; None is every platform.
pub(crate) fn has_use(uses: &Uses<'_>, kind: Kind, platform: Option<&str>) -> bool
    ensures { result ≡ uses_view uses.now (record { kind = kind; platform = option_map text_view platform.entry }) }
{
    match kind {
        Kind::Normal => has_platform(&uses.normal, platform),
        Kind::Build => has_platform(&uses.build, platform),
        Kind::Development => has_platform(&uses.development, platform),
    }
}

/// Returns no use.
fn no_uses<'v>(alloc: Global) -> Uses<'v>
    ensures { (asked : UseText) → uses_view result asked ≡ false }
{
    Uses {
        normal: no_platforms(alloc),
        build: no_platforms(alloc),
        development: no_platforms(alloc),
    }
}

/// Reads the uses `objects` of the used package at place `dep` of `node`, or returns the first fault.
pub(crate) fn uses_of<'v>(
    alloc: Global,
    objects: &Vec<Value<'v>>,
    node: usize,
    dep: usize,
) -> Result<Uses<'v>, DocumentFault>
    ensures { Gives uses_view result (uses_in node dep (items_view objects.now.items)) }
{
    let mut uses = no_uses(alloc);
    for (kind, object) in objects.iter().enumerate() {
        insert_use(
            &mut uses,
            use_of(object, Place::DepKind { node, dep, kind })?,
        )?;
    }
    Ok(uses)
}
