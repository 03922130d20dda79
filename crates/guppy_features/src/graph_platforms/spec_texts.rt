//! The spec texts that the declarations of a package graph name.
ghost use Rattle.std.specs.Prelude.{◌≡◌, ◌++◌, ◌∷◌, [], List, Option, map, OnOk, IfOk};
ghost use Rattle.std.specs.List.{cons_option};
ghost use Rattle.std.specs.Option.{option_map};
ghost use Rattle.std.specs.Str.{bytes_eq};
ghost use Rattle.guppy_packages.specs.Graph.{firsts};
ghost use Rattle.guppy_packages.specs.Metadata.{link_table_of};
ghost use Rattle.guppy_packages.specs.Platform.{platform_specs, spec_text};
ghost use Rattle.guppy_packages.specs.Rows.{Text};
ghost use Rattle.guppy_features.specs.graph_platforms.DeclaredSpecs.{link_specs, spec_texts};
ghost use Rattle.guppy_features.specs.graph_platforms.inner.TextSets.{texts_in};

use guppy_packages::{PackageGraph, PackageLink, PlatformStatusImpl, Spec};
use indexmap::IndexSet;
use std::alloc::{AllocError, Global};
use std::hash::{BuildHasherDefault, DefaultHasher};

/// A set of texts from outside, by SipHash with a fixed key: texts that collide have to be searched for.
pub type TextSet<'g> = IndexSet<&'g str, BuildHasherDefault<DefaultHasher>>;

/// Inserts the texts of `specs`.
fn insert_all<'g>(set: &mut TextSet<'g>, specs: &'g [Spec]) -> Result<(), AllocError>
    ensures { OnOk result ((before : List Text) → texts_in set.old ≡ firsts bytes_eq before → texts_in set.new ≡ firsts bytes_eq (before ++ map spec_text specs.now)) }
{
    for spec in specs {
        set.insert(spec.text())?;
    }
    Ok(())
}

/// Inserts the spec of a declaration's `platform`, if it has one.
fn insert_platform<'g>(
    set: &mut TextSet<'g>,
    platform: &'g PlatformStatusImpl,
) -> Result<(), AllocError>
    ensures { OnOk result ((p : Option Text) (before : List Text) → platform_specs platform.now ≡ option_map (λ spec. spec ∷ []) p
        → texts_in set.old ≡ firsts bytes_eq before → texts_in set.new ≡ firsts bytes_eq (before ++ cons_option p [])) }
{
    match platform {
        PlatformStatusImpl::Always => Ok(()),
        PlatformStatusImpl::Specs(specs) => insert_all(set, specs.as_slice()),
    }
}

/// Inserts the specs of the declarations of `link`.
fn insert_link<'g>(set: &mut TextSet<'g>, link: PackageLink<'g>) -> Result<(), AllocError>
    ensures { OnOk result ((before : List Text) → texts_in set.old ≡ firsts bytes_eq before
        → texts_in set.new ≡ firsts bytes_eq (before ++ link_specs (link_table_of link.entry))) }
{
    let declarations = link.declarations();
    for declaration in declarations {
        insert_platform(set, declaration.platform())?;
    }
    Ok(())
}

/// Returns each spec text that a declaration of `graph` names, once, by first appearance.
pub fn declared_specs(alloc: Global, graph: &PackageGraph) -> Result<TextSet<'_>, AllocError>
    ensures { IfOk result (λ set. texts_in set ≡ spec_texts graph.now) }
{
    let mut set = IndexSet::with_hasher(alloc, BuildHasherDefault::new());
    for ix in 0..graph.link_count() {
        insert_link(&mut set, graph.link(ix))?;
    }
    Ok(set)
}
