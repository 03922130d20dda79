//! The builds of two documents that `diff` compares.
ghost use Rattle.std.specs.Prelude.{◌≡◌, None, IfOk, OnOk, IfErr};
ghost use Rattle.feats.specs.comparisons.Documents as spec;
ghost use Rattle.feats_files.specs.Messages.{IsRefused, Says};
ghost use Rattle.feats_words.specs.Views.{request_text};

use feats_files::{Fault, refused};
use feats_words::{Request, document_request};
use std::alloc::Global;

/// The requests about the builds of two documents.
#[derive(Drop)]
pub struct ComparedRequests<'a> {
    pub old: Request<'a>,
    pub new: Request<'a>,
}

/// Returns whether a word says the version of the resolver: `version`, or `manifest` from which it is read.
fn is_known(version: Option<&str>, manifest: Option<&str>) -> bool
    ensures { result ≡ spec.is_known (spec.word version.entry) (spec.word manifest.entry) }
{
    version.is_some() || manifest.is_some()
}

/// Returns the refusal of a document whose resolver isn't known.
fn unknown_resolver(alloc: Global, document: &str) -> Fault
    ensures { IsRefused (spec.unknown_message document.now) result }
{
    refused(
        alloc,
        &[
            "the resolver of `",
            document,
            "` isn't known: name the root manifest of OLD by --old-manifest and that of NEW by --manifest, or write --resolver",
        ],
    )
}

/// Returns the requests of `feats diff OLD NEW`, about one document each; `new` is the path of the second. The version of the resolver
/// is that of `--resolver`, or the one of `--old-manifest` for the first document and of `--manifest` for the second. The refusal of a
/// document whose version no word says, and `Memory`, are the only errors.
pub fn compared_requests<'a>(
    alloc: Global,
    request: &Request<'a>,
    new: &'a str,
) -> Result<ComparedRequests<'a>, Fault>
    ensures requests { IfOk result (λ requests. spec.requests_text requests ≡ spec.requests (request_text request.now) new.entry.now) }
    ensures known { OnOk result (spec.unknown (request_text request.now) new.entry.now ≡ None) }
    ensures fault { IfErr result (λ fault. Says fault (spec.IsUnknown (request_text request.now) new.entry.now)) }
{
    if !is_known(request.resolver, request.old_manifest) {
        return Err(unknown_resolver(alloc, request.metadata));
    }
    if !is_known(request.resolver, request.manifest) {
        return Err(unknown_resolver(alloc, new));
    }
    Ok(ComparedRequests {
        old: document_request(alloc, request, request.metadata, request.old_manifest)?,
        new: document_request(alloc, request, new, request.manifest)?,
    })
}
