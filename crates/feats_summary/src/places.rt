//! Where packages are, by a document.
ghost use Rattle.std.specs.Prelude.{◌≡◌, IfOk, OnOk, option_map};
ghost use Rattle.json.specs.Value.{items_view, value_view};
ghost use Rattle.feats_summary.specs.Places as spec;
ghost use Rattle.feats_summary.specs.inner.Views.{entry_texts, places_text};

use build_summaries::path_from;
use json::Value;
use std::alloc::{AllocError, Global};
use std::collections::BTreeMap;

/// Where packages are.
#[derive(Drop)]
pub(crate) struct Places<'d> {
    /// The folder of the workspace.
    pub(crate) root: Option<&'d str>,
    /// The path of each package's manifest, by the package's id.
    pub(crate) manifests: BTreeMap<&'d str, &'d str>,
}

/// Returns the text in the field `name`.
fn text_at<'d>(object: &Value<'d>, name: &str) -> Option<&'d str>
    ensures { option_map (λ t. t.now) result ≡ spec.text_at name.now (value_view object.now) }
{
    match object.get(name) {
        Some(Value::String(text)) => Some(*text),
        _ => None,
    }
}

/// Inserts `path` under `id`, if both are there.
#[tactic(auto, using(crate::proofs::Entries::insert_texts))]
fn insert_if<'d>(
    manifests: &mut BTreeMap<&'d str, &'d str>,
    id: Option<&'d str>,
    path: Option<&'d str>,
) -> Result<(), AllocError>
    ensures { OnOk result (entry_texts manifests.new.entries ≡ spec.entry_if (entry_texts manifests.old.entries) (option_map (λ t. t.now) id.entry) (option_map (λ t. t.now) path.entry)) }
{
    match (id, path) {
        (Some(id), Some(path)) => {
            let _earlier = manifests.insert(id, path)?;
            Ok(())
        }
        _ => Ok(()),
    }
}

/// Inserts the manifest of each of `packages`.
fn insert_all<'d>(
    manifests: &mut BTreeMap<&'d str, &'d str>,
    packages: &Vec<Value<'d>>,
) -> Result<(), AllocError>
    ensures { OnOk result (entry_texts manifests.new.entries ≡ spec.with_packages (entry_texts manifests.old.entries) (items_view packages.now.items)) }
{
    for package in packages {
        insert_if(
            manifests,
            text_at(package, "id"),
            text_at(package, "manifest_path"),
        )?;
    }
    Ok(())
}

/// Returns where `document` says that packages are.
pub(crate) fn places_in<'d>(alloc: Global, document: &Value<'d>) -> Result<Places<'d>, AllocError>
    ensures { IfOk result (λ places. places_text places ≡ spec.places_in (value_view document.now)) }
{
    let mut manifests = BTreeMap::new(alloc);
    if let Some(Value::Array(packages)) = document.get("packages") {
        insert_all(&mut manifests, packages)?;
    }
    Ok(Places {
        root: text_at(document, "workspace_root"),
        manifests,
    })
}

/// Returns the path of the manifest under `id`.
#[tactic(auto, using(crate::proofs::Entries::lookup_texts))]
fn manifest_at<'d>(manifests: &BTreeMap<&'d str, &'d str>, id: &str) -> Option<&'d str>
    ensures { option_map (λ t. t.now) result ≡ spec.manifest_at (entry_texts manifests.now.entries) id.now }
{
    match manifests.get(id) {
        Some(path) => Some(*path),
        None => None,
    }
}

/// Returns the bytes of `text`.
fn bytes_of(alloc: Global, text: &str) -> Result<Vec<u8>, AllocError>
    ensures { IfOk result (λ bytes. bytes.items ≡ text.now) }
{
    Vec::from_slice(alloc, text.as_bytes())
}

/// Returns the path of the package `id` from the folder of the workspace; the id itself, if it isn't known where the package is.
pub(crate) fn path_of(alloc: Global, places: &Places<'_>, id: &str) -> Result<Vec<u8>, AllocError>
    ensures { IfOk result (λ path. path.items ≡ spec.path_of (places_text places.now) id.now) }
{
    match (places.root, manifest_at(&places.manifests, id)) {
        (Some(root), Some(manifest)) => path_from(alloc, root, manifest),
        _ => bytes_of(alloc, id),
    }
}
