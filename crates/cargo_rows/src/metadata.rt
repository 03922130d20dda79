//! Parses a document and builds the text of its rows.
ghost use Rattle.std.specs.Prelude.{◌≡◌, ℕ, List, Some, None, Ok, IfOk, IfErr, map, string_bytes};
ghost use Rattle.std.specs.Str.{IsUtf8};
ghost use Rattle.json.specs.Value.{value_view};
ghost use Rattle.cargo_rows.specs.Document.{document};
ghost use Rattle.cargo_json.specs.Faults.{Text, Gives};
ghost use Rattle.workspace_documents.specs.Nodes.{no_node};
ghost use Rattle.cargo_rows.specs.Rows.{led_rows, package_rows, all_rows, rows_of};
ghost use Rattle.cargo_rows.specs.Run.{AreRows, AreWarnings, Refuses};
ghost use Rattle.cargo_rows.specs.Warnings.{libraries_of, all_warnings, warnings_of, warning_view};
ghost use Rattle.workspace_documents.specs.Views.{text_view, dep_view, node_view, package_view, entries_view};
ghost use Rattle.cargo_rows.specs.inner.Views.{HasTexts, after};

use crate::rows::{push_dependencies, push_features, push_package};
use crate::sets::set_of;
use crate::warnings::{Warning, warnings_of_packages};
use cargo_json::{DocumentFault, Fault, Unread, parts_of, read};
use json::{Reader, Scratch, Value};
use std::alloc::Global;
use std::collections::BTreeSet;
use workspace_documents::{
    Dep, Node, Nodes, Package, Packages, Resolved, check_names, dependencies_of, node_at,
    packages_of, resolved_in,
};

/// The depth to which arrays and objects may nest.
const MAX_DEPTH: usize = 127;

/// Adds the rows of the declarations of a package that uses these.
#[tactic(auto, unfolding(crate::specs::Rows::led_rows))]
fn push_led<'p, 'v>(
    alloc: Global,
    rows: &mut String,
    package: &'p Package<'v>,
    deps: &[Dep<'p, 'v>],
) -> Result<(), DocumentFault>
    ensures { Gives (λ _. string_bytes rows.new) result (after (string_bytes rows.old) (led_rows (map dep_view deps.now) (package_view «package».now))) }
{
    let dependencies = dependencies_of(alloc, package, deps)?;
    check_names(alloc, package, &dependencies)?;
    push_dependencies(alloc, rows, &dependencies)?;
    Ok(())
}

/// Adds the rows of one package that uses these.
#[tactic(auto, unfolding(crate::specs::Rows::package_rows))]
fn push_rows<'p, 'v>(
    alloc: Global,
    rows: &mut String,
    package: &'p Package<'v>,
    is_member: bool,
    deps: &[Dep<'p, 'v>],
) -> Result<(), DocumentFault>
    ensures { Gives (λ _. string_bytes rows.new) result (after (string_bytes rows.old) (package_rows is_member (map dep_view deps.now) (package_view «package».now))) }
{
    push_package(alloc, rows, package, is_member)?;
    push_features(alloc, rows, &package.features)?;
    push_led(alloc, rows, package, deps)?;
    Ok(())
}

/// The rows of each package; `absent` is a node with nothing.
fn rows_of_packages<'p, 'v>(
    alloc: Global,
    packages: &'p Packages<'v>,
    members: &BTreeSet<&'v str>,
    nodes: &Nodes<'p, 'v>,
    absent: &Node<'p, 'v>,
) -> Result<String, DocumentFault>
    requires { node_view absent.now ≡ no_node }
    ensures { (texts : List Text) → HasTexts members.now texts → Gives (λ text. string_bytes text) result (all_rows texts (entries_view node_view nodes.now.entries) (entries_view package_view packages.now.entries)) }
{
    let mut rows = String::new(alloc);
    for (id, package) in packages {
        let is_member = members.contains(*id);
        let node = node_at(&*nodes, &*absent, *id);
        push_rows(alloc, &mut rows, package, is_member, &node.deps)?;
    }
    Ok(rows)
}

/// The rows and the warnings of a document.
#[derive(Drop)]
pub(crate) struct Rows {
    /// The text of the rows.
    pub(crate) text: String,
    /// The declarations of workspace packages that should lead to a package but don't.
    pub(crate) warnings: Vec<Warning>,
}

/// The rows and the warnings of packages, by what Cargo resolved.
fn rows_over<'p, 'v>(
    alloc: Global,
    packages: &'p Packages<'v>,
    resolved: &Resolved<'p, 'v>,
) -> Result<Rows, DocumentFault>
    ensures rows { Gives (λ rows. string_bytes rows.text) result (all_rows (map text_view resolved.now.members.items) (entries_view node_view resolved.now.nodes.entries) (entries_view package_view packages.now.entries)) }
    ensures warnings { IfOk result (λ rows. map warning_view rows.warnings.items ≡ all_warnings (libraries_of (map (λ e. e.1) (entries_view package_view packages.now.entries))) (map text_view resolved.now.members.items) (entries_view node_view resolved.now.nodes.entries) (entries_view package_view packages.now.entries)) }
{
    let members = set_of(alloc, &resolved.members)?;
    let absent = Node::new(alloc);
    let text = rows_of_packages(alloc, packages, &members, &resolved.nodes, &absent)?;
    let warnings = warnings_of_packages(alloc, packages, &members, &resolved.nodes, &absent)?;
    Ok(Rows { text, warnings })
}

/// The rows of a document. What was read of it is dropped before more is read.
#[tactic(auto, unfolding(crate::specs::Rows::rows_of, workspace_documents::specs::Packages::packages_in))]
fn rows_of_document(alloc: Global, document: Value<'_>) -> Result<Rows, DocumentFault>
    ensures rows { Gives (λ rows. string_bytes rows.text) result (rows_of (value_view document.entry)) }
    ensures warnings { IfOk result (λ rows. warnings_of (value_view document.entry) ≡ Ok (map warning_view rows.warnings.items)) }
{
    let (listed, rest) = parts_of(alloc, document)?;
    let packages = packages_of(alloc, listed)?;
    let resolved = resolved_in(alloc, &packages, &rest)?;
    drop(rest);
    rows_over(alloc, &packages, &resolved)
}

/// Returns `NotJson` with the line and the column, in bytes, of `offset`, where the reader of `text` stopped.
fn not_json(text: &str, offset: usize) -> Fault
    ensures { (bytes : List ℕ) → IsUtf8 bytes → document bytes ≡ None → Refuses bytes result }
{
    let mut line = 1usize;
    let mut column = 0usize;
    for byte in text.as_bytes().iter().take(offset) {
        if *byte == b'\n' {
            line = line.saturating_add(1);
            column = 0;
        } else {
            column = column.saturating_add(1);
        }
    }
    if offset < text.len() {
        column = column.saturating_add(1);
    }
    Fault::NotJson { line, column }
}

/// Parses `text` as one document. Returns `NotJson` if it isn't one or nests deeper than `MAX_DEPTH`, and `Memory` if an
/// allocation fails.
fn document_of<'t>(
    alloc: Global,
    text: &'t str,
    scratch: &'t mut Scratch,
) -> Result<Value<'t>, Fault>
    ensures ok { IfOk result (λ it. document text.now ≡ Some (value_view it)) }
    ensures fault { IfErr result (λ fault. Refuses text.now fault) }
{
    let Ok(mut reader) = Reader::new(text, scratch) else {
        return Err(Fault::Memory);
    };
    match read(alloc, &mut reader, MAX_DEPTH) {
        Ok(value) => {
            let end = reader.offset();
            match reader.next() {
                None => Ok(value),
                Some(_) => Err(not_json(text, end)),
            }
        }
        Err(Unread::Memory) => Err(Fault::Memory),
        Err(Unread::Invalid) => Err(not_json(text, reader.offset())),
    }
}

/// Returns the rows and the warnings of the document in `bytes`, or the first fault.
pub(crate) fn rows_of_bytes(alloc: Global, bytes: Vec<u8>) -> Result<Rows, Fault>
    ensures ok { IfOk result (λ rows. AreRows bytes.items (string_bytes rows.text)) }
    ensures warnings { IfOk result (λ rows. AreWarnings bytes.items (map warning_view rows.warnings.items)) }
    ensures fault { IfErr result (λ fault. Refuses bytes.items fault) }
{
    let Ok(text) = str::from_utf8(&bytes) else {
        return Err(Fault::NotText);
    };
    let mut scratch = Scratch::new(alloc);
    let it = document_of(alloc, text, &mut scratch)?;
    match rows_of_document(alloc, it) {
        Ok(rows) => Ok(rows),
        Err(DocumentFault::Memory) => Err(Fault::Memory),
        Err(fault) => Err(Fault::Document { fault }),
    }
}
