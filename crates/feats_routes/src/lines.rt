//! Routes as text in columns.
ghost use Rattle.std.specs.Prelude.{◌≡◌, ◌++◌, None, IfOk, OnOk, flat_map, map, string_bytes};
ghost use Rattle.feats_lines.specs.parts.Views.{row_text};
ghost use Rattle.feats_lines.specs.Lines.{name_of};
ghost use Rattle.feats_lines.specs.Repeats.{HasRepeated};
ghost use Rattle.shortest_routes.specs.Routes.{route_text};
ghost use Rattle.feats_routes.specs.Lines as spec;
ghost use Rattle.feats_routes.specs.Shown.{shown_text};

use crate::kinds::kind_of;
use crate::shown::Shown;
use cargo_workspaces::Kind;
use feats_lines::label_of;
use feats_lines::parts::{Row, table_of};
use feats_tree::trees::title_of;
use plan_rows::Platform;
use shortest_routes::Route;
use shown_texts::escaped;
use std::alloc::{AllocError, Global};
use std::collections::BTreeSet;

/// Returns the words for how a package depends on another, by a declaration of kind `kind`.
fn kind_words(kind: Kind) -> &'static str
    ensures { result.now ≡ spec.kind_words kind }
{
    match kind {
        Kind::Normal => " depends on it",
        Kind::Build => " depends on it for builds",
        Kind::Development => " depends on it for development",
    }
}

/// Returns the reason why `node` is in the build: the unit `before` depends on it, or it is selected.
fn reason<P: Platform>(
    alloc: Global,
    shown: &Shown<'_, '_, '_, P>,
    before: Option<usize>,
    node: usize,
) -> Result<String, AllocError>
    ensures { IfOk result (λ text. string_bytes text ≡ spec.reason (shown_text P.holds shown.now) before node) }
{
    match before {
        Some(before) => {
            let mut text = String::from_str(alloc, title_of(shown.titles, before))?;
            text.push_str(kind_words(kind_of(shown, before, node)))?;
            Ok(text)
        }
        None => String::from_str(alloc, "selected"),
    }
}

/// Returns the title of `node`, indented.
fn indented<P: Platform>(
    alloc: Global,
    shown: &Shown<'_, '_, '_, P>,
    node: usize,
) -> Result<String, AllocError>
    ensures { IfOk result (λ text. string_bytes text ≡ spec.indented (shown_text P.holds shown.now) node) }
{
    let mut text = String::from_str(alloc, "    ")?;
    text.push_str(title_of(shown.titles, node))?;
    Ok(text)
}

/// Returns the row of `node`, on which the unit `before` depends.
fn row_of<P: Platform>(
    alloc: Global,
    shown: &Shown<'_, '_, '_, P>,
    before: Option<usize>,
    node: usize,
) -> Result<Row, AllocError>
    ensures { IfOk result (λ row. row_text row ≡ spec.row_of (shown_text P.holds shown.now) before node) }
{
    let first = indented(alloc, shown, node)?;
    let second = reason(alloc, shown, before, node)?;
    Ok(Row {
        first,
        second,
        third: String::new(alloc),
    })
}

/// Returns the rows of `nodes`.
fn rows_of<P: Platform>(
    alloc: Global,
    shown: &Shown<'_, '_, '_, P>,
    nodes: &[usize],
) -> Result<Vec<Row>, AllocError>
    ensures { IfOk result (λ rows. map row_text rows.items ≡ spec.rows_from (shown_text P.holds shown.now) None nodes.now) }
{
    let mut rows = Vec::with_capacity(alloc, nodes.len())?;
    let mut before = None;
    for node in nodes {
        rows.push(row_of(alloc, shown, before, *node)?)?;
        before = Some(*node);
    }
    Ok(rows)
}

/// Returns the label of the member with number `owner`; an empty text, if there is none. `repeated` are the names with versions that several
/// packages have.
fn member_label<P: Platform>(
    alloc: Global,
    repeated: &BTreeSet<&str>,
    shown: &Shown<'_, '_, '_, P>,
    owner: usize,
) -> Result<String, AllocError>
    requires { HasRepeated repeated.now (map name_of (shown_text P.holds shown.now).packages) }
    ensures { IfOk result (λ label. string_bytes label ≡ spec.member_label (shown_text P.holds shown.now) owner) }
{
    match shown.packages.get(owner) {
        Some(package) => {
            let label = label_of(alloc, repeated, package)?;
            escaped(alloc, label.as_str())
        }
        None => Ok(String::new(alloc)),
    }
}

/// Appends the line of the member with number `owner`.
fn push_head<P: Platform>(
    alloc: Global,
    text: &mut String,
    repeated: &BTreeSet<&str>,
    shown: &Shown<'_, '_, '_, P>,
    owner: usize,
) -> Result<(), AllocError>
    requires { HasRepeated repeated.now (map name_of (shown_text P.holds shown.now).packages) }
    ensures { OnOk result (string_bytes text.new ≡ string_bytes text.old ++ spec.head (shown_text P.holds shown.now) owner) }
{
    let label = member_label(alloc, repeated, shown, owner)?;
    text.push_str(label.as_str())?;
    text.push_str(" (the member)\n")
}

/// Returns the table of `nodes`.
fn table_of_nodes<P: Platform>(
    alloc: Global,
    shown: &Shown<'_, '_, '_, P>,
    nodes: &[usize],
) -> Result<String, AllocError>
    ensures { IfOk result (λ text. string_bytes text ≡ spec.table_of_nodes (shown_text P.holds shown.now) nodes.now) }
{
    let rows = rows_of(alloc, shown, nodes)?;
    table_of(alloc, &rows)
}

/// Appends the lines of `route`.
fn push_route<P: Platform>(
    alloc: Global,
    text: &mut String,
    repeated: &BTreeSet<&str>,
    shown: &Shown<'_, '_, '_, P>,
    route: &Route,
) -> Result<(), AllocError>
    requires { HasRepeated repeated.now (map name_of (shown_text P.holds shown.now).packages) }
    ensures { OnOk result (string_bytes text.new ≡ string_bytes text.old ++ spec.route_lines (shown_text P.holds shown.now) (route_text route.now)) }
{
    push_head(alloc, text, repeated, shown, route.owner)?;
    let table = table_of_nodes(alloc, shown, &route.nodes)?;
    text.push_str(table.as_str())
}

/// Returns the lines of `routes`: for each the member, and the units of the route with their reasons.
pub(crate) fn route_lines<P: Platform>(
    alloc: Global,
    repeated: &BTreeSet<&str>,
    shown: &Shown<'_, '_, '_, P>,
    routes: &[Route],
) -> Result<String, AllocError>
    requires { HasRepeated repeated.now (map name_of (shown_text P.holds shown.now).packages) }
    ensures { IfOk result (λ text. string_bytes text ≡ flat_map (spec.route_lines (shown_text P.holds shown.now)) (map route_text routes.now)) }
{
    let mut text = String::new(alloc);
    for route in routes {
        push_route(alloc, &mut text, repeated, shown, route)?;
    }
    Ok(text)
}
