//! The packages of a document, with what they declare.
ghost use Rattle.std.specs.Prelude.{◌≡◌, [], Some, IfErr, IfOk, OnOk, codes, false, is_some, true, map, option_map, option_and_then};
ghost use Rattle.std.specs.BTreeMap.{get, insert_entry};
ghost use Rattle.std.specs.List.{list_any};
ghost use Rattle.json.specs.Find.{as_array};
ghost use Rattle.json.specs.Value.{value_view, items_view, members_view};
ghost use Rattle.cargo_json.specs.Faults.{Gives, IfNotMemory, refusal_of, repeated};
ghost use Rattle.cargo_json.specs.Fields.{wanted, all_texts};
ghost use Rattle.workspace_documents.specs.Lists.{each, each_by_id};
ghost use Rattle.workspace_documents.specs.Packages as spec;
ghost use Rattle.workspace_documents.specs.inner.Keys.{key_cmp};
ghost use Rattle.cargo_workspaces.specs.Views.{feature_text};
ghost use Rattle.cargo_workspaces.specs.Workspaces.{is_library_kind};
ghost use Rattle.workspace_documents.specs.Views.{text_view, use_view, declaration_view, package_view, entries_view};
ghost use Rattle.cargo_json.specs.declared.fault.Place.TheVariants as at;

use crate::targets::{targets_of, text_at};
use cargo_json::{
    DocumentFault, Place, flag_in, list_in, object_in, optional_text_in, text_in, texts_in,
    texts_of,
};
use cargo_workspaces::{Feature, Kind, Target};
use json::Value;
use std::alloc::{AllocError, Global};
use std::collections::BTreeMap;

/// A kind and a platform, of a declaration or of a use.
#[derive(Drop)]
pub struct Use<'v> {
    pub kind: Kind,
    pub platform: Option<&'v str>,
}

/// A dependency that a package declares.
#[derive(Drop)]
pub struct Declaration<'v> {
    pub name: &'v str,
    pub rename: Option<&'v str>,
    pub requirement: &'v str,
    pub kind: Kind,
    pub platform: Option<&'v str>,
    pub is_optional: bool,
    pub has_default_features: bool,
    pub features: Vec<&'v str>,
}

/// A package of the document.
#[derive(Drop)]
pub struct Package<'v> {
    pub id: &'v str,
    pub name: &'v str,
    pub version: &'v str,
    /// Where its source is, if that is a text; null for a package at a path.
    pub source: Option<&'v str>,
    /// The name of its first library target, where it has one.
    pub library: Option<&'v str>,
    /// Its targets, in the order of the document.
    pub targets: Vec<Target<'v>>,
    pub features: Vec<Feature<'v>>,
    pub declarations: Vec<Declaration<'v>>,
}

/// Packages by their ids.
pub type Packages<'v> = BTreeMap<&'v str, Package<'v>>;

/// Returns the kind `build` or `dev` that `text` names. Any other text is a fault of the field `kind` at `place`.
fn kind_named(text: &str, place: Place) -> Result<Kind, DocumentFault>
    ensures { Gives (λ k. k) result (spec.kind_of place (Some text.now)) }
{
    if text == "build" {
        Ok(Kind::Build)
    } else if text == "dev" {
        Ok(Kind::Development)
    } else {
        Err(DocumentFault::Field {
            place,
            name: "kind",
        })
    }
}

/// Reads the field `kind` of a declaration or of a use. Null is the normal kind. Returns `Field` if the text is no kind.
pub(crate) fn kind_in(object: &Value<'_>, place: Place) -> Result<Kind, DocumentFault>
    ensures { Gives (λ k. k) result (spec.kind_in place (value_view object.now)) }
{
    match optional_text_in(object, place, "kind")? {
        None => Ok(Kind::Normal),
        Some(text) => kind_named(text, place),
    }
}

/// Returns the platform `text`. Returns `EveryPlatform` for `*`, since a row writes `*` for every platform.
fn platform_named<'v>(text: &'v str, place: Place) -> Result<Option<&'v str>, DocumentFault>
    ensures { Gives (λ o. option_map text_view o) result (spec.platform_of place (Some text.now)) }
{
    if text == "*" {
        Err(DocumentFault::EveryPlatform { place })
    } else {
        Ok(Some(text))
    }
}

/// Reads the field `target` of a declaration or of a use. None is every platform. Returns `EveryPlatform` for the text `*`.
pub(crate) fn platform_in<'v>(
    object: &Value<'v>,
    place: Place,
) -> Result<Option<&'v str>, DocumentFault>
    ensures { Gives (λ o. option_map text_view o) result (spec.platform_in place (value_view object.now)) }
{
    match optional_text_in(object, place, "target")? {
        None => Ok(None),
        Some(text) => platform_named(text, place),
    }
}

/// Reads the kind and the platform of a declaration or of a use.
#[tactic(auto, unfolding(crate::specs::Packages::use_in))]
pub(crate) fn use_of<'v>(object: &Value<'v>, place: Place) -> Result<Use<'v>, DocumentFault>
    ensures { Gives use_view result (spec.use_in place (value_view object.now)) }
{
    Ok(Use {
        kind: kind_in(object, place)?,
        platform: platform_in(object, place)?,
    })
}

/// Reads the name of a declaration, its new name and its requirement.
#[tactic(auto, unfolding(crate::specs::Packages::wanted_in))]
fn wanted_in<'v>(
    object: &Value<'v>,
    place: Place,
) -> Result<(&'v str, Option<&'v str>, &'v str), DocumentFault>
    ensures { Gives (λ w. (w.0.now, (option_map text_view w.1, w.2.now))) result (spec.wanted_in place (value_view object.now)) }
{
    Ok((
        text_in(object, place, "name")?,
        optional_text_in(object, place, "rename")?,
        text_in(object, place, "req")?,
    ))
}

/// Reads whether a declaration is optional, and whether it has default features.
#[tactic(auto, unfolding(crate::specs::Packages::flags_in))]
fn flags_in(object: &Value<'_>, place: Place) -> Result<(bool, bool), DocumentFault>
    ensures { Gives (λ flags. flags) result (spec.flags_in place (value_view object.now)) }
{
    Ok((
        flag_in(object, place, "optional")?,
        flag_in(object, place, "uses_default_features")?,
    ))
}

/// One declaration.
#[tactic(auto, unfolding(crate::specs::Packages::declaration_in))]
fn declaration_of<'v>(
    alloc: Global,
    object: &Value<'v>,
    place: Place,
) -> Result<Declaration<'v>, DocumentFault>
    ensures { Gives declaration_view result (spec.declaration_in place (value_view object.now)) }
{
    let (name, rename, requirement) = wanted_in(object, place)?;
    let Use { kind, platform } = use_of(object, place)?;
    let (is_optional, has_default_features) = flags_in(object, place)?;
    let features = texts_in(alloc, object, place, "features")?;
    Ok(Declaration {
        name,
        rename,
        requirement,
        kind,
        platform,
        is_optional,
        has_default_features,
        features,
    })
}

/// Reads the declarations `objects` of the package at place `package`, or returns the first fault.
fn declarations_of<'v>(
    alloc: Global,
    objects: &Vec<Value<'v>>,
    package: usize,
) -> Result<Vec<Declaration<'v>>, DocumentFault>
    ensures { Gives (λ ds. map declaration_view ds.items) result (each (λ i. spec.declaration_in (at.Dependency «package» i)) 0 (items_view objects.now.items)) }
{
    let mut declarations = Vec::with_capacity(alloc, objects.len())?;
    for (dependency, object) in objects.iter().enumerate() {
        let place = Place::Dependency {
            package,
            dependency,
        };
        declarations.push(declaration_of(alloc, object, place)?)?;
    }
    Ok(declarations)
}

/// Returns `members` in the order of their names. If a name is repeated, its last value is kept. The only error is out of memory.
fn sorted<'d, 'v>(
    alloc: Global,
    members: &'d Vec<(&'v str, Value<'v>)>,
) -> Result<BTreeMap<&'v str, &'d Value<'v>>, AllocError>
    ensures { IfOk result (λ m. entries_view (λ v. value_view v.now) m.entries ≡ spec.sorted [] (members_view members.now.items)) }
{
    let mut sorted = BTreeMap::new(alloc);
    for (name, value) in members {
        let _earlier = sorted.insert(*name, value)?;
    }
    Ok(sorted)
}

/// Returns the items of a feature.
fn items_of<'v>(
    alloc: Global,
    value: &Value<'v>,
    place: Place,
) -> Result<Vec<&'v str>, DocumentFault>
    ensures { Gives (λ items. map text_view items.items) result (wanted place (codes "features") (option_and_then all_texts (as_array (value_view value.now)))) }
{
    match value {
        Value::Array(items) => texts_of(alloc, items, place, "features"),
        _ => Err(DocumentFault::Field {
            place,
            name: "features",
        }),
    }
}

/// Returns the feature `name` with the items in `value`.
fn feature_of<'v>(
    alloc: Global,
    name: &'v str,
    value: &Value<'v>,
    place: Place,
) -> Result<Feature<'v>, DocumentFault>
    ensures { Gives feature_text result (spec.feature_in place (name.now, value_view value.now)) }
{
    let items = items_of(alloc, value, place)?;
    Ok(Feature { name, items })
}

/// Returns the features `members` of the package of this place, in their order.
fn features_in<'v>(
    alloc: Global,
    members: &BTreeMap<&'v str, &Value<'v>>,
    place: Place,
) -> Result<Vec<Feature<'v>>, DocumentFault>
    ensures { Gives (λ fs. map feature_text fs.items) result (spec.features_of place (entries_view (λ v. value_view v.now) members.now.entries)) }
{
    let mut features = Vec::with_capacity(alloc, members.len())?;
    for (name, value) in members {
        features.push(feature_of(alloc, *name, *value, place)?)?;
    }
    Ok(features)
}

/// The named features of the package of this place, in the order of their names.
fn features_of<'v>(
    alloc: Global,
    members: &Vec<(&'v str, Value<'v>)>,
    place: Place,
) -> Result<Vec<Feature<'v>>, DocumentFault>
    ensures { Gives (λ fs. map feature_text fs.items) result (spec.features_of place (spec.sorted [] (members_view members.now.items))) }
{
    let members = sorted(alloc, members)?;
    features_in(alloc, &members, place)
}

/// Returns whether `kind` is the kind of a library target.
fn is_library_kind(kind: &str) -> bool
    ensures { result ≡ is_library_kind kind.now }
{
    matches!(
        kind,
        "lib" | "rlib" | "dylib" | "cdylib" | "staticlib" | "proc-macro"
    )
}

/// Returns whether one of `kinds` is the kind of a library target.
fn has_library_kind(kinds: &[&str]) -> bool
    ensures { result ≡ list_any is_library_kind (map text_view kinds.now) }
{
    for kind in kinds {
        if is_library_kind(kind) {
            return true;
        }
    }
    false
}

/// Returns the name of the target `object` if it is a library, or its first fault.
#[tactic(auto, unfolding(crate::specs::Packages::library_in))]
fn library_of<'v>(
    alloc: Global,
    object: &Value<'v>,
    place: Place,
) -> Result<Option<&'v str>, DocumentFault>
    ensures { Gives (λ o. option_map text_view o) result (spec.library_in place (value_view object.now)) }
{
    let name = text_in(object, place, "name")?;
    let kinds = texts_in(alloc, object, place, "kind")?;
    if has_library_kind(&kinds) {
        Ok(Some(name))
    } else {
        Ok(None)
    }
}

/// Returns the name of the first library among the targets of the package at place `package`, or the first fault of any target.
#[tactic(auto, unfolding(crate::specs::Packages::first_library))]
fn first_library<'v>(
    alloc: Global,
    objects: &Vec<Value<'v>>,
    package: usize,
) -> Result<Option<&'v str>, DocumentFault>
    ensures { Gives (λ o. option_map text_view o) result (spec.first_library «package» (items_view objects.now.items)) }
{
    let mut first = None;
    for (target, object) in objects.iter().enumerate() {
        let found = library_of(alloc, object, Place::Target { package, target })?;
        if first.is_none() {
            first = found;
        }
    }
    Ok(first)
}

/// The lists of declarations and of targets of a package, and its features.
#[derive(Clone, Copy)]
struct Lists<'d, 'v> {
    declared: &'d Vec<Value<'v>>,
    targets: &'d Vec<Value<'v>>,
    features: &'d Vec<(&'v str, Value<'v>)>,
}

/// Reads the lists of declarations and of targets of a package, and its features.
#[tactic(auto, unfolding(crate::specs::Packages::lists_in))]
fn lists_in<'d, 'v>(object: &'d Value<'v>, place: Place) -> Result<Lists<'d, 'v>, DocumentFault>
    ensures { Gives (λ l. (items_view l.declared.now.items, (items_view l.targets.now.items, members_view l.features.now.items))) result (spec.lists_in place (value_view object.now)) }
{
    Ok(Lists {
        declared: list_in(object, place, "dependencies")?,
        targets: list_in(object, place, "targets")?,
        features: object_in(object, place, "features")?,
    })
}

/// Reads the id of a package, its name and its version.
#[tactic(auto, unfolding(crate::specs::Packages::names_in))]
fn names_in<'v>(
    object: &Value<'v>,
    place: Place,
) -> Result<(&'v str, &'v str, &'v str), DocumentFault>
    ensures { Gives (λ n. (n.0.now, (n.1.now, n.2.now))) result (spec.names_in place (value_view object.now)) }
{
    Ok((
        text_in(object, place, "id")?,
        text_in(object, place, "name")?,
        text_in(object, place, "version")?,
    ))
}

/// One package, by its place.
#[tactic(auto, unfolding(crate::specs::Packages::package_in))]
fn package_of<'v>(
    alloc: Global,
    object: &Value<'v>,
    package: usize,
) -> Result<Package<'v>, DocumentFault>
    ensures { Gives package_view result (spec.package_in «package» (value_view object.now)) }
{
    let place = Place::Package { package };
    let lists = lists_in(object, place)?;
    let (id, name, version) = names_in(object, place)?;
    let library = first_library(alloc, lists.targets, package)?;
    let targets = targets_of(alloc, lists.targets)?;
    let features = features_of(alloc, lists.features, place)?;
    let declarations = declarations_of(alloc, lists.declared, package)?;
    Ok(Package {
        id,
        name,
        version,
        source: text_at(object, "source"),
        library,
        targets,
        features,
        declarations,
    })
}

/// Reads a package as `package_of` does, and drops `object`.
fn package_from<'v>(
    alloc: Global,
    object: Value<'v>,
    package: usize,
) -> Result<Package<'v>, DocumentFault>
    ensures { Gives package_view result (spec.package_in «package» (value_view object.entry)) }
{
    let read = package_of(alloc, &object, package)?;
    Ok(read)
}

/// Reads the packages in `listed`, by their ids, and drops each object once it is read. Returns `Field` if `listed` isn't an
/// array, otherwise the first fault of a package, or `Repeated` for an id that an earlier package has.
#[tactic(auto, unfolding(crate::specs::Packages::packages_at))]
pub fn packages_of<'v>(
    alloc: Global,
    listed: Option<Value<'v>>,
) -> Result<Packages<'v>, DocumentFault>
    ensures { Gives (λ m. entries_view package_view m.entries) result (spec.packages_at (option_map value_view listed.entry)) }
{
    match listed {
        Some(Value::Array(objects)) => packages_from(alloc, objects),
        _ => Err(DocumentFault::Field {
            place: Place::Document,
            name: "packages",
        }),
    }
}

/// Inserts `added`, which is at place `place`, under its id. Returns `Repeated` if an earlier package has that id.
fn insert<'v>(
    packages: &mut Packages<'v>,
    added: Package<'v>,
    place: usize,
) -> Result<(), DocumentFault>
    ensures inserted { OnOk result ((is_some (get key_cmp packages.old added.entry.id) ≡ false) × (packages.new.entries ≡ insert_entry key_cmp packages.old.entries added.entry.id added.entry)) }
    ensures repeated { IfErr result (λ e. IfNotMemory (refusal_of e) ((is_some (get key_cmp packages.old added.entry.id) ≡ true) × (refusal_of e ≡ repeated (at.Package place)))) }
{
    if packages.insert(added.id, added)?.is_some() {
        return Err(DocumentFault::Repeated {
            place: Place::Package { package: place },
        });
    }
    Ok(())
}

/// Reads the packages that these objects are, by their ids. Each object is dropped once it is read.
fn packages_from<'v>(
    alloc: Global,
    mut objects: Vec<Value<'v>>,
) -> Result<Packages<'v>, DocumentFault>
    ensures { Gives (λ m. entries_view package_view m.entries) result (each_by_id spec.package_with_id at.Package 0 [] (items_view objects.entry.items)) }
{
    let count = objects.len();
    objects.reverse();
    let mut packages = BTreeMap::new(alloc);
    'objects: while let Some(object) = objects.pop() {
        let place = count - objects.len() - 1;
        let package = package_from(alloc, object, place)?;
        insert(&mut packages, package, place)?;
    }
    Ok(packages)
}
