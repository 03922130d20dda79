//! The resolver of a manifest.
ghost use Rattle.std.specs.Prelude.{◌≡◌, option_map};
ghost use Rattle.toml.specs.View.{view};
ghost use Rattle.cargo_manifests.specs.resolvers.Resolvers as spec;

use crate::resolvers::fault::{KeyFault, ManifestFault, ManifestKey};
use crate::resolvers::resolver::Resolver;
use std::alloc::Global;
use std::str;
use toml::Value;

/// Returns the value of `key` in `section`.
fn value_at<'v>(manifest: &'v Value, section: &str, key: &str) -> Option<&'v Value>
    ensures { option_map (λ v. view v.now) result ≡ spec.value_at section.now key.now (view manifest.now) }
{
    manifest.get(section)?.get(key)
}

/// Returns the value of `key` in the table of the root package: `package`, or `project`, its older name, if there is no `package`.
fn package_value<'v>(manifest: &'v Value, key: &str) -> Option<&'v Value>
    ensures { option_map (λ v. view v.now) result ≡ spec.package_value key.now (view manifest.now) }
{
    match manifest.get("package") {
        Some(package) => package.get(key),
        None => value_at(manifest, "project", key),
    }
}

/// Returns the resolver that `value`, the value of `key`, names.
fn named(key: ManifestKey, value: &Value) -> Result<Resolver, KeyFault>
    ensures { result ≡ spec.named_by key (view value.now) }
{
    match value.as_str() {
        Some(text) => Resolver::named(text).ok_or(KeyFault::Unknown(key)),
        None => Err(KeyFault::Unknown(key)),
    }
}

/// Returns the resolver of the edition that `value`, the value of `key`, names.
fn of_edition(key: ManifestKey, value: &Value) -> Result<Resolver, KeyFault>
    ensures { result ≡ spec.of_edition key (view value.now) }
{
    match value.as_str() {
        Some(text) => Resolver::of_edition(text).ok_or(KeyFault::Unknown(key)),
        None => Err(KeyFault::Unknown(key)),
    }
}

/// Returns the resolver of the edition that the workspace's packages inherit.
fn of_inherited(manifest: &Value) -> Result<Resolver, KeyFault>
    ensures { result ≡ spec.of_inherited (view manifest.now) }
{
    match value_at(manifest, "workspace", "package") {
        Some(package) => match package.get("edition") {
            Some(value) => of_edition(ManifestKey::WorkspaceEdition, value),
            None => Err(KeyFault::Missing(ManifestKey::WorkspaceEdition)),
        },
        None => Err(KeyFault::Missing(ManifestKey::WorkspaceEdition)),
    }
}

/// Returns whether the package inherits the value `value` from its workspace.
fn is_inherited(value: &Value) -> bool
    ensures { result ≡ spec.is_inherited (view value.now) }
{
    match value.get("workspace") {
        Some(flag) => flag.as_bool() == Some(true),
        None => false,
    }
}

/// Returns the resolver of the root package's edition: the first, if there is no root package.
fn by_edition(manifest: &Value) -> Result<Resolver, KeyFault>
    ensures { result ≡ spec.by_edition (view manifest.now) }
{
    match package_value(manifest, "edition") {
        Some(value) => {
            if is_inherited(value) {
                of_inherited(manifest)
            } else {
                of_edition(ManifestKey::PackageEdition, value)
            }
        }
        None => Ok(Resolver::V1),
    }
}

/// Returns the resolver that the root manifest `manifest` chooses: by `workspace.resolver`, else by `package.resolver`, else by the
/// edition of the root package. The table `project` stands for `package`, if there is none. The error is the key whose value Cargo doesn't know, or which is missing.
pub fn resolver_of(manifest: &Value) -> Result<Resolver, KeyFault>
    ensures { result ≡ spec.resolver_in (view manifest.now) }
{
    if let Some(value) = value_at(manifest, "workspace", "resolver") {
        return named(ManifestKey::WorkspaceResolver, value);
    }
    if let Some(value) = package_value(manifest, "resolver") {
        return named(ManifestKey::PackageResolver, value);
    }
    by_edition(manifest)
}

/// Returns the resolver that the root manifest with these bytes chooses. The error is `NotText` or `NotToml` if they are no TOML
/// document, `Key` for a key of it, or `Memory`.
pub fn resolver_of_bytes(alloc: Global, bytes: &[u8]) -> Result<Resolver, ManifestFault>
    ensures { spec.IsResolverOf bytes.now result }
{
    let Ok(text) = str::from_utf8(bytes) else {
        return Err(ManifestFault::NotText);
    };
    match toml::table_from_str(alloc, text) {
        Ok(table) => match resolver_of(&Value::Table(table)) {
            Ok(resolver) => Ok(resolver),
            Err(fault) => Err(ManifestFault::Key(fault)),
        },
        Err(error) => {
            if error.is_memory() {
                Err(ManifestFault::Memory)
            } else {
                Err(ManifestFault::NotToml)
            }
        }
    }
}
