//! The candidates for the edges of a package's nodes, as keys, and the warnings of items, one part of the tables at a time.
ghost use Rattle.std.specs.Prelude.{◌≡◌, ◌+◌, ◌++◌, ◌<◌, ◌≤◌, ◌^◌, ◌↔◌, ◌&&◌, if◌then◌else◌, ℕ, AllPairs, Contains, OnOk, IsFalse, Some, [], flat_map, length};
ghost use Rattle.feature_labels.specs.declared.link_declarations.LinkDeclarations.TheVariants.{Optional};
ghost use Rattle.guppy_packages.specs.Items.{feature_item, optional_item, item_of};
ghost use Rattle.guppy_packages.specs.Metadata.{package_graph_of, package_table_of, link_table_of};
ghost use Rattle.guppy_packages.specs.NamedFeature.{feature_table};
ghost use Rattle.feature_labels.specs.Names.LabelName.{base, named, optional};
ghost use Rattle.guppy_packages.specs.Rows.{Text};
ghost use Rattle.feature_edges.specs.inner.Adds.{Adds, Below};
ghost use Rattle.feature_edges.specs.inner.Collects.{Collects, lack_by, links_from, of_feature_at};
ghost use Rattle.feature_edges.specs.inner.Keys.{IsNoLater};
ghost use Rattle.feature_links.specs.Links.{links_named};
ghost use Rattle.feature_edges.specs.inner.Parts.{key, over_kind, IsToFirstFrom, IsOver, IsOverLink, IsBeside, IsOfItem, IsOfItemAt, IsOfFeature, IsOfOptional, IsAround};
ghost use Rattle.feature_edges.specs.inner.Made.{AreFrom, IsMaterial};
ghost use Rattle.feature_edges.specs.Nodes.{first_node, features_in};
ghost use Rattle.feature_edges.specs.Warnings.{lacks_over, of_item, of_link, warnings_in};

use crate::candidate::{CandidateKind, Key, set_aside, sort_keys};
use crate::collect::Collected;
use crate::collect::declarations::push_links;
use crate::collect::package_input::PackageInput;
use crate::make::Material;
use crate::node_numbers::Numbers;
use crate::warnings::{push_lack, push_lack_of_dependency, push_missing, push_self_loop};
use feature_labels::LinkDeclarations;
use feature_links::{is_any_included, numbers_of};
use guppy_packages::{NamedFeature, NamedFeatureDep, PackageLink, PackageMetadata};
use std::alloc::{AllocError, Global};

/// Returns whether `number` needs more than 32 bits.
fn is_wide(number: usize) -> bool
    ensures { IsFalse result ↔ (number < 2 ^ 32) }
{
    number > u32::MAX as usize
}

/// Appends the key from `from` to `to`, if `to` is `Some`. Returns `AllocError` if a number doesn't fit in 32 bits: that many
/// nodes or links need tens of gigabytes.
pub(crate) fn push_to(
    keys: &mut Vec<Key>,
    from: usize,
    to: Option<usize>,
    kind: CandidateKind,
    source: usize,
    place: usize,
) -> Result<(), AllocError>
    ensures { OnOk result (Adds (λ x. (w : ℕ) × (to ≡ Some w) × (x ≡ key from w kind source place)) keys.old.items keys.new.items) }
{
    let Some(to) = to else {
        return Ok(());
    };
    if is_wide(from) || is_wide(to) || is_wide(source) || is_wide(place) {
        return Err(AllocError);
    }
    keys.push(Key {
        from: from as u32,
        to: to as u32,
        kind,
        source: source as u32,
        place: place as u32,
    })?;
    Ok(())
}

/// Appends a key to `first`, a package's base, from each of its nodes from number `start` up to, not including, `count`.
fn push_to_first(
    keys: &mut Vec<Key>,
    first: usize,
    start: usize,
    count: usize,
) -> Result<(), AllocError>
    requires some { 0 < start }
    requires ascends { start ≤ count }
    requires fits { first + count < 2 ^ 64 }
    ensures { OnOk result (Adds (Below count (IsToFirstFrom start first)) keys.old.items keys.new.items) }
{
    for place in start..count {
        let from = first + place;
        push_to(keys, from, Some(first), CandidateKind::FeatureToBase, 0, 0)?;
    }
    Ok(())
}

/// Returns the kind of a slash edge, by whether its item is weak and its link has an optional declaration.
fn slash_kind(weak: bool, optional: bool) -> CandidateKind
    ensures { result ≡ (if weak && optional then CandidateKind.SlashWeak else CandidateKind.SlashFull) }
{
    if weak && optional {
        CandidateKind::SlashWeak
    } else {
        CandidateKind::SlashFull
    }
}

/// Returns the kind of a slash edge over `link`, by whether its item is weak.
fn kind_over(link: PackageLink<'_>, weak: bool) -> CandidateKind
    ensures { result ≡ over_kind weak (link_table_of link.entry) }
{
    slash_kind(
        weak,
        is_any_included(LinkDeclarations::Optional, link.declarations()),
    )
}

/// Appends the key to the named feature `feature` of the target of link `ix`, or a warning if the target doesn't have it.
fn push_over_link(
    collected: &mut Collected,
    input: PackageInput<'_, '_>,
    from: usize,
    feature: &str,
    weak: bool,
    ix: usize,
) -> Result<(), AllocError>
    requires { ix < length input.numbers.graph.now.links }
    ensures { OnOk result (Collects (IsOverLink input.entry.numbers.graph.now from feature.now weak ix) (lack_by input.entry.numbers.graph.now feature.now ix) [] collected.old collected.new) }
{
    let link = input.numbers.graph.link(ix);
    let target = link.to();
    let to = input.numbers.named(target, feature);
    push_to(&mut collected.keys, from, to, kind_over(link, weak), ix, 0)?;
    let warnings = &mut collected.item_warnings;
    push_lack(input.alloc, warnings, target, feature, to.is_some())
}

/// Appends the keys to the named feature `feature` of the targets of the links under `dep_name`, and a warning for each target
/// that doesn't have it, or one if there is no such link.
fn push_over(
    collected: &mut Collected,
    input: PackageInput<'_, '_>,
    from: usize,
    dep_name: &str,
    feature: &str,
    weak: bool,
) -> Result<(), AllocError>
    ensures { OnOk result (Collects (λ x. (k : ℕ) × IsOver input.entry.numbers.graph.now from input.entry.metadata.package_ix dep_name.now feature.now weak k x) (lacks_over input.entry.numbers.graph.now (package_table_of input.entry.metadata) dep_name.now feature.now (links_named input.entry.numbers.graph.now input.entry.metadata.package_ix dep_name.now)) [] collected.old collected.new) }
{
    let links = numbers_of(input.groups, input.metadata.package_ix(), dep_name);
    if links.is_empty() {
        let name = String::from_str(input.alloc, dep_name)?;
        let warnings = &mut collected.item_warnings;
        return push_missing(input.alloc, warnings, input.metadata, name);
    }
    for place in 0..links.len() {
        push_over_link(collected, input, from, feature, weak, links[place])?;
    }
    Ok(())
}

/// Appends the keys of a strong item to nodes of its own package: the optional dependency `dep_name`, and the feature of that
/// name.
fn push_beside(
    keys: &mut Vec<Key>,
    numbers: Numbers<'_>,
    metadata: PackageMetadata<'_>,
    from: usize,
    feature_name: &str,
    dep_name: &str,
) -> Result<(), AllocError>
    requires { package_graph_of metadata ≡ numbers.graph.now }
    ensures { OnOk result (Adds (IsBeside numbers.entry.graph.now from metadata.entry.package_ix feature_name.now dep_name.now) keys.old.items keys.new.items) }
{
    let Some(dependency) = numbers.optional(metadata, dep_name) else {
        return Ok(());
    };
    let kind = CandidateKind::SlashOptional;
    push_to(keys, from, Some(dependency), kind, 0, 0)?;
    if dep_name != feature_name {
        push_to(keys, from, numbers.named(metadata, dep_name), kind, 0, 0)?;
    }
    Ok(())
}

/// Appends the key of an item of the feature `feature_name` that names `feature`, or its warning.
fn push_feature_item(
    collected: &mut Collected,
    input: PackageInput<'_, '_>,
    from: usize,
    feature_name: &str,
    feature: &str,
) -> Result<(), AllocError>
    ensures { OnOk result (Collects (IsOfItem input.entry.numbers.graph.now from input.entry.metadata.package_ix feature_name.now (feature_item feature.now)) (of_item input.entry.numbers.graph.now input.entry.metadata.package_ix (package_table_of input.entry.metadata) feature_name.now (feature_item feature.now)) [] collected.old collected.new) }
{
    let warnings = &mut collected.item_warnings;
    if feature == feature_name {
        return push_self_loop(input.alloc, warnings, input.metadata, feature_name);
    }
    let to = input.numbers.named(input.metadata, feature);
    push_to(
        &mut collected.keys,
        from,
        to,
        CandidateKind::NamedFeature,
        0,
        0,
    )?;
    push_lack(input.alloc, warnings, input.metadata, feature, to.is_some())
}

/// Appends the key of an item, of any feature, that names the optional dependency `name`, or its warning.
fn push_optional_item(
    collected: &mut Collected,
    input: PackageInput<'_, '_>,
    from: usize,
    name: &str,
) -> Result<(), AllocError>
    ensures { (f : Text) → OnOk result (Collects (IsOfItem input.entry.numbers.graph.now from input.entry.metadata.package_ix f (optional_item name.now)) (of_item input.entry.numbers.graph.now input.entry.metadata.package_ix (package_table_of input.entry.metadata) f (optional_item name.now)) [] collected.old collected.new) }
{
    let to = input.numbers.optional(input.metadata, name);
    push_to(&mut collected.keys, from, to, CandidateKind::DepColon, 0, 0)?;
    let warnings = &mut collected.item_warnings;
    push_lack_of_dependency(input.alloc, warnings, input.metadata, name, to.is_some())
}

/// Appends the keys and warnings of an item of the feature `feature_name`.
fn push_item(
    collected: &mut Collected,
    input: PackageInput<'_, '_>,
    from: usize,
    feature_name: &str,
    item: &str,
) -> Result<(), AllocError>
    ensures { OnOk result (Collects (IsOfItem input.entry.numbers.graph.now from input.entry.metadata.package_ix feature_name.now (item_of item.now)) (of_item input.entry.numbers.graph.now input.entry.metadata.package_ix (package_table_of input.entry.metadata) feature_name.now (item_of item.now)) [] collected.old collected.new) }
{
    match NamedFeatureDep::from_cargo_string(item) {
        NamedFeatureDep::NamedFeature(feature) => {
            push_feature_item(collected, input, from, feature_name, feature)
        }
        NamedFeatureDep::OptionalDependency(name) => {
            push_optional_item(collected, input, from, name)
        }
        NamedFeatureDep::DependencyNamedFeature {
            dep_name,
            feature,
            weak,
        } => {
            push_over(collected, input, from, dep_name, feature, weak)?;
            if !weak {
                let keys = &mut collected.keys;
                push_beside(
                    keys,
                    input.numbers,
                    input.metadata,
                    from,
                    feature_name,
                    dep_name,
                )?;
            }
            Ok(())
        }
    }
}

/// Appends the keys and warnings of a feature's items.
fn push_feature(
    collected: &mut Collected,
    input: PackageInput<'_, '_>,
    from: usize,
    feature: &NamedFeature,
) -> Result<(), AllocError>
    ensures { OnOk result (Collects (λ x. (j : ℕ) × IsOfItemAt input.entry.numbers.graph.now from input.entry.metadata.package_ix (feature_table feature.now) j x) (flat_map (λ text. of_item input.entry.numbers.graph.now input.entry.metadata.package_ix (package_table_of input.entry.metadata) (feature_table feature.now).name (item_of text)) (feature_table feature.now).items) [] collected.old collected.new) }
{
    for ix in 0..feature.item_count() {
        push_item(collected, input, from, feature.name(), feature.item(ix))?;
    }
    Ok(())
}

/// Appends the keys of a feature: that to the base of its package, and those of its items. Appends the items' warnings.
fn push_node(
    collected: &mut Collected,
    input: PackageInput<'_, '_>,
    from: usize,
    feature: &NamedFeature,
) -> Result<(), AllocError>
    ensures { OnOk result (Collects (IsOfFeature input.entry.numbers.graph.now from input.entry.metadata.package_ix (feature_table feature.now)) (flat_map (λ text. of_item input.entry.numbers.graph.now input.entry.metadata.package_ix (package_table_of input.entry.metadata) (feature_table feature.now).name (item_of text)) (feature_table feature.now).items) [] collected.old collected.new) }
{
    let base = input.numbers.base(input.metadata);
    let kind = CandidateKind::FeatureToBase;
    push_to(&mut collected.keys, from, Some(base), kind, 0, 0)?;
    push_feature(collected, input, from, feature)
}

/// Appends a key to the base of a package from each of its optional dependencies.
fn push_optional(keys: &mut Vec<Key>, input: PackageInput<'_, '_>) -> Result<(), AllocError>
    ensures { OnOk result (Adds (IsOfOptional input.entry.numbers.graph.now input.entry.metadata.package_ix (package_table_of input.entry.metadata)) keys.old.items keys.new.items) }
{
    let PackageInput {
        numbers,
        metadata,
        ..
    } = input;
    let start = 1 + metadata.named_features().len();
    push_to_first(
        keys,
        numbers.base(metadata),
        start,
        numbers.node_count(metadata),
    )
}

/// Sets the keys of `collected` to those of the links that leave a package and of its optional dependencies, sorted. Appends the
/// warnings of the names that declarations list.
fn push_around(collected: &mut Collected, input: PackageInput<'_, '_>) -> Result<(), AllocError>
    ensures ordered { OnOk result (AllPairs IsNoLater collected.new.keys.items) }
    ensures keys { OnOk result (Adds (IsAround input.entry.numbers.graph.now input.entry.metadata.package_ix (package_table_of input.entry.metadata)) [] collected.new.keys.items) }
    ensures items { OnOk result (warnings_in collected.new.item_warnings ≡ warnings_in collected.old.item_warnings) }
    ensures names { OnOk result (warnings_in collected.new.name_warnings ≡ warnings_in collected.old.name_warnings ++ flat_map (of_link input.entry.numbers.graph.now) (links_from input.entry.numbers.graph.now input.entry.metadata.package_ix)) }
{
    collected.keys.clear();
    push_links(collected, input)?;
    push_optional(&mut collected.keys, input)?;
    sort_keys(&mut collected.keys);
    Ok(())
}

/// Sets the keys of `collected` to those of the base of package `ix`, and `later` to those of its optional dependencies; both are
/// sorted. Appends the warnings of the names that declarations list.
pub(crate) fn collect_around(
    collected: &mut Collected,
    later: &mut Vec<Key>,
    alloc: Global,
    material: Material<'_, '_>,
    ix: usize,
) -> Result<(), AllocError>
    requires material { IsMaterial material }
    requires package { ix < length material.numbers.graph.now.packages }
    ensures base_ordered { OnOk result (AllPairs IsNoLater collected.new.keys.items) }
    ensures base { OnOk result (AreFrom material.entry.numbers.graph.now (first_node material.entry.numbers.graph.now ix) (first_node material.entry.numbers.graph.now ix + 1) collected.new.keys.items) }
    ensures later_ordered { OnOk result (AllPairs IsNoLater later.new.items) }
    ensures later { OnOk result (AreFrom material.entry.numbers.graph.now (first_node material.entry.numbers.graph.now ix + 1 + features_in material.entry.numbers.graph.now ix) (first_node material.entry.numbers.graph.now (ix + 1)) later.new.items) }
    ensures items { OnOk result (warnings_in collected.new.item_warnings ≡ warnings_in collected.old.item_warnings) }
    ensures names { OnOk result (warnings_in collected.new.name_warnings ≡ warnings_in collected.old.name_warnings ++ flat_map (of_link material.entry.numbers.graph.now) (links_from material.entry.numbers.graph.now ix)) }
{
    let numbers = material.numbers;
    let input = PackageInput {
        alloc,
        numbers,
        groups: material.groups,
        defaults: material.defaults,
        gates: material.gates,
        metadata: numbers.graph.package(ix),
    };
    push_around(collected, input)?;
    let base = numbers.base(input.metadata);
    let _nodes = numbers.node_count(input.metadata);
    set_aside(&mut collected.keys, later, base + 1)?;
    Ok(())
}

/// Sets the keys of `collected` to those of named feature `place` of package `ix`, sorted. Appends the warnings of its items.
pub(crate) fn collect_feature(
    collected: &mut Collected,
    alloc: Global,
    material: Material<'_, '_>,
    ix: usize,
    place: usize,
) -> Result<(), AllocError>
    requires material { IsMaterial material }
    requires package { ix < length material.numbers.graph.now.packages }
    requires place { place < features_in material.numbers.graph.now ix }
    ensures ordered { OnOk result (AllPairs IsNoLater collected.new.keys.items) }
    ensures keys { OnOk result (AreFrom material.entry.numbers.graph.now (first_node material.entry.numbers.graph.now ix + 1 + place) (first_node material.entry.numbers.graph.now ix + 1 + (place + 1)) collected.new.keys.items) }
    ensures items { OnOk result (warnings_in collected.new.item_warnings ≡ warnings_in collected.old.item_warnings ++ of_feature_at material.entry.numbers.graph.now ix place) }
    ensures names { OnOk result (warnings_in collected.new.name_warnings ≡ warnings_in collected.old.name_warnings) }
{
    let numbers = material.numbers;
    let input = PackageInput {
        alloc,
        numbers,
        groups: material.groups,
        defaults: material.defaults,
        gates: material.gates,
        metadata: numbers.graph.package(ix),
    };
    let features = input.metadata.named_features();
    collected.keys.clear();
    let from = numbers.feature(input.metadata, place);
    push_node(collected, input, from, &features[place])?;
    sort_keys(&mut collected.keys);
    Ok(())
}
