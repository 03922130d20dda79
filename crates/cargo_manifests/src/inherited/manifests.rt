//! The manifests in a file.
ghost use Rattle.std.specs.Prelude.{◌≡◌, IfOk, IfErr, map};
ghost use Rattle.std.specs.List.{AllZip, Any};
ghost use Rattle.std.specs.Result.{IsErrOf};
ghost use Rattle.toml.specs.View.{view};
ghost use Rattle.cargo_manifests.specs.inherited.Manifests as spec;

use crate::inherited::fault::ManifestsFault;
use std::alloc::{AllocError, Global};
use std::str;
use toml::Value;

/// Returns the parts of `bytes` between NUL bytes.
fn pieces_of(alloc: Global, bytes: &[u8]) -> Result<Vec<&[u8]>, AllocError>
    ensures { IfOk result (λ pieces. map (λ p. p.now) pieces.items ≡ spec.pieces bytes.now) }
{
    bytes.split(|byte| *byte == 0).collect(alloc)
}

/// Returns the document that `bytes` are.
fn document_of(alloc: Global, bytes: &[u8]) -> Result<Value, ManifestsFault>
    ensures document { IfOk result (λ d. spec.IsDocument bytes.now (view d)) }
    ensures fault { IsErrOf result ManifestsFault.NotToml → spec.IsNoDocument bytes.now }
{
    let Ok(text) = str::from_utf8(bytes) else {
        return Err(ManifestsFault::NotToml);
    };
    match toml::table_from_str(alloc, text) {
        Ok(table) => Ok(Value::Table(table)),
        Err(error) => {
            if error.is_memory() {
                Err(ManifestsFault::Memory)
            } else {
                Err(ManifestsFault::NotToml)
            }
        }
    }
}

/// Returns the documents that `pieces` are.
fn documents_of(alloc: Global, pieces: &[&[u8]]) -> Result<Vec<Value>, ManifestsFault>
    ensures documents { IfOk result (λ ds. AllZip spec.IsDocument (map (λ p. p.now) pieces.now) (map view ds.items)) }
    ensures fault { IsErrOf result ManifestsFault.NotToml → Any spec.IsNoDocument (map (λ p. p.now) pieces.now) }
{
    let mut documents = Vec::new(alloc);
    for piece in pieces {
        documents.push(document_of(alloc, piece)?)?;
    }
    Ok(documents)
}

/// Returns the manifests in `bytes`; each ends with a NUL byte. The error is `NotToml` if one of them isn't a TOML document, and
/// `Memory` if an allocation fails.
pub fn manifests_in(alloc: Global, bytes: &[u8]) -> Result<Vec<Value>, ManifestsFault>
    ensures manifests { IfOk result (λ manifests. spec.AreManifests bytes.now (map view manifests.items)) }
    ensures fault { IsErrOf result ManifestsFault.NotToml → spec.IsNoManifests bytes.now }
{
    let pieces = pieces_of(alloc, bytes)?;
    documents_of(alloc, &pieces)
}
