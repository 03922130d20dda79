//! The sections of a manifest for platforms.
ghost use Rattle.std.specs.Prelude.{◌≡◌, IfOk, option_map};
ghost use Rattle.toml.specs.View.{view, table_view};
ghost use Rattle.cargo_manifests.specs.inherited.Entries as spec;

use std::alloc::{AllocError, Global};
use toml::{Table, Value};

/// Returns whether `byte` counts where platform specs are compared.
fn is_mark(byte: u8) -> bool
    ensures { result ≡ spec.is_mark byte }
{
    byte != b' ' && byte != b','
}

/// Returns the bytes of `text` that count where platform specs are compared.
fn marks(alloc: Global, text: &str) -> Result<Vec<u8>, AllocError>
    ensures { IfOk result (λ marks. marks.items ≡ spec.marks text.now) }
{
    let mut marks = Vec::new(alloc);
    for byte in text.as_bytes() {
        if is_mark(*byte) {
            marks.push(*byte)?;
        }
    }
    Ok(marks)
}

/// Returns whether `key`, that of a section, is the platform spec `platform`.
fn is_same_platform(alloc: Global, platform: &str, key: &str) -> Result<bool, AllocError>
    ensures { IfOk result (λ same. same ≡ spec.is_same_platform platform.now key.now) }
{
    let key = marks(alloc, key)?;
    let platform = marks(alloc, platform)?;
    Ok(key == platform)
}

/// Returns the section of the platform spec `platform` among `sections`.
fn section_for<'m>(
    alloc: Global,
    sections: &'m Table,
    platform: &str,
) -> Result<Option<&'m Value>, AllocError>
    ensures { IfOk result (λ found. option_map (λ v. view v.now) found ≡ spec.section_for platform.now (table_view sections.now)) }
{
    for (key, section) in sections.iter() {
        if is_same_platform(alloc, platform, key)? {
            return Ok(Some(section));
        }
    }
    Ok(None)
}

/// Returns the section of the platform spec `platform` in `manifest`.
fn section_of_platform<'m>(
    alloc: Global,
    manifest: &'m Value,
    platform: &str,
) -> Result<Option<&'m Value>, AllocError>
    ensures { IfOk result (λ found. option_map (λ v. view v.now) found ≡ spec.section_of_platform platform.now (view manifest.now)) }
{
    match manifest.get("target") {
        Some(target) => match target.as_table() {
            Some(sections) => section_for(alloc, sections, platform),
            None => Ok(None),
        },
        None => Ok(None),
    }
}

/// Returns the section of `manifest` for the declarations with the platform spec `platform`: `manifest` itself, if there is none.
pub(crate) fn section_of<'m>(
    alloc: Global,
    manifest: &'m Value,
    platform: Option<&str>,
) -> Result<Option<&'m Value>, AllocError>
    ensures { IfOk result (λ found. option_map (λ v. view v.now) found ≡ spec.section_of (option_map (λ t. t.now) platform.entry) (view manifest.now)) }
{
    match platform {
        Some(platform) => section_of_platform(alloc, manifest, platform),
        None => Ok(Some(manifest)),
    }
}
