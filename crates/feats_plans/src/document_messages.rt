//! Messages about documents that describe no workspace.
ghost use Rattle.std.specs.Prelude.{◌≡◌, IfOk, string_bytes};
ghost use Rattle.cargo_json.specs.Faults.{place_text, refusal_of};
ghost use Rattle.feats_files.specs.Messages.{IsRefused, Says};
ghost use Rattle.feats_plans.specs.DocumentMessages as spec;

use crate::numbered_workspaces::WorkspaceFault;
use cargo_json::{DocumentFault, Place};
use feats_files::{Fault, refused};
use std::alloc::{AllocError, Global};

/// Returns the path of an object of the document.
fn path_of(alloc: Global, place: Place) -> Result<String, AllocError>
    ensures { IfOk result (λ text. string_bytes text ≡ place_text place) }
{
    format!(in alloc; "{place}")
}

/// Returns the refusal of the field `name` at `place`; `what` says why.
fn field_refused(alloc: Global, place: Place, name: &str, what: &str) -> Fault
    ensures { IsRefused (spec.field_message place name.now what.now) result }
{
    match path_of(alloc, place) {
        Ok(path) => refused(alloc, &["the document: ", path.as_str(), name, what]),
        Err(_) => Fault::Memory,
    }
}

/// Returns the refusal of the field `name` at `place`, which names the package `id`.
fn no_package(alloc: Global, place: Place, name: &str, id: &str) -> Fault
    ensures { IsRefused (spec.package_message place name.now id.now) result }
{
    match path_of(alloc, place) {
        Ok(path) => refused(
            alloc,
            &[
                "the document: ",
                path.as_str(),
                name,
                ": no package `",
                id,
                "`",
            ],
        ),
        Err(_) => Fault::Memory,
    }
}

/// Returns the refusal of a package that depends on `target` by two names.
fn two_names(alloc: Global, package: &str, target: &str, first: &str, second: &str) -> Fault
    ensures { IsRefused (spec.names_message «package».now target.now first.now second.now) result }
{
    refused(
        alloc,
        &[
            "the document: package `",
            package,
            "`: dependency on `",
            target,
            "` is named `",
            first,
            "` and `",
            second,
            "`",
        ],
    )
}

/// Returns the refusal for `fault`: a field of the document is missing, malformed or contradicts another one.
fn read_refused(alloc: Global, fault: &DocumentFault) -> Fault
    ensures { IsRefused (spec.read_message (refusal_of fault.now)) result }
{
    match fault {
        DocumentFault::Field { place, name } => {
            field_refused(alloc, *place, name, ": missing or of another type")
        }
        DocumentFault::Repeated { place } => field_refused(alloc, *place, "id", ": repeated"),
        DocumentFault::NoPackage { place, name, id } => {
            no_package(alloc, *place, name, id.as_str())
        }
        DocumentFault::Ambiguous { package, name } => refused(
            alloc,
            &[
                "the document: package `",
                package.as_str(),
                "`: dependency `",
                name.as_str(),
                "` is ambiguous",
            ],
        ),
        DocumentFault::TwoNames {
            package,
            target,
            first,
            second,
        } => two_names(
            alloc,
            package.as_str(),
            target.as_str(),
            first.as_str(),
            second.as_str(),
        ),
        DocumentFault::Control { text } => refused(
            alloc,
            &["the document: control character in `", text.as_str(), "`"],
        ),
        DocumentFault::EveryPlatform { place } => {
            field_refused(alloc, *place, "target", ": `*` is no platform")
        }
        DocumentFault::NoDeps => refused(
            alloc,
            &["the document: resolve: null; the document was made with --no-deps"],
        ),
        DocumentFault::Memory => Fault::Memory,
    }
}

/// Returns the refusal of a document that describes no workspace.
pub(crate) fn document_refused(alloc: Global, fault: &WorkspaceFault<'_>) -> Fault
    ensures { Says result (spec.IsMessageOf fault.now) }
{
    match fault {
        WorkspaceFault::Document { fault } => read_refused(alloc, fault),
        WorkspaceFault::FeatureName { package, name } => refused(
            alloc,
            &[
                "the document: package `",
                package,
                "`: feature `",
                name,
                "` begins with `[`; rename it",
            ],
        ),
        WorkspaceFault::TwoNames {
            package,
            first,
            second,
        } => refused(
            alloc,
            &[
                "the document: package `",
                package,
                "`: dependencies `",
                first,
                "` and `",
                second,
                "` are one package; give both one name",
            ],
        ),
        WorkspaceFault::Memory => Fault::Memory,
    }
}
