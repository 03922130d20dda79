//! Routes as JSON objects.
ghost use Rattle.std.specs.Prelude.{◌≡◌, ◌++◌, None, IfOk, OnOk, flat_map, map, option_map};
ghost use Rattle.cargo_workspaces.specs.Views.{package_text};
ghost use Rattle.feats_lines.specs.parts.Members.{Appends};
ghost use Rattle.shortest_routes.specs.Routes.{route_text};
ghost use Rattle.feats_routes.specs.Objects as spec;
ghost use Rattle.feats_routes.specs.Shown.{shown_text};

use crate::kinds::kind_of;
use crate::shown::Shown;
use cargo_workspaces::Package;
use feats_lines::kind_word;
use feats_lines::parts::{begin_line, end_line, write_member, write_optional};
use feats_tree::trees::write_node;
use json::Writer;
use plan_rows::Platform;
use shortest_routes::Route;
use std::alloc::{AllocError, Global};

/// Returns the word for how the unit `before` depends on `node`; `None` without such a unit.
fn word_of<P: Platform>(
    shown: &Shown<'_, '_, '_, P>,
    before: Option<usize>,
    node: usize,
) -> Option<&'static str>
    ensures { option_map (λ t. t.now) result ≡ spec.word_of (shown_text P.holds shown.now) before node }
{
    match before {
        Some(before) => Some(kind_word(kind_of(shown, before, node))),
        None => None,
    }
}

/// Writes the object of `node`, on which the unit `before` depends.
fn write_step<P: Platform>(
    writer: &mut Writer,
    shown: &Shown<'_, '_, '_, P>,
    before: Option<usize>,
    node: usize,
) -> Result<(), AllocError>
    ensures { OnOk result (Appends writer.old writer.new (spec.step_tokens (shown_text P.holds shown.now) before node)) }
{
    writer.begin_object()?;
    write_node(writer, shown.titles, node)?;
    write_optional(writer, "kind", word_of(shown, before, node))?;
    writer.end_object()
}

/// Writes the objects of `nodes`.
fn write_steps<P: Platform>(
    writer: &mut Writer,
    shown: &Shown<'_, '_, '_, P>,
    nodes: &[usize],
) -> Result<(), AllocError>
    ensures { OnOk result (Appends writer.old writer.new (spec.steps_from (shown_text P.holds shown.now) None nodes.now)) }
{
    let mut before = None;
    for node in nodes {
        write_step(writer, shown, before, *node)?;
        before = Some(*node);
    }
    Ok(())
}

/// Writes the array of `nodes`.
fn write_route<P: Platform>(
    writer: &mut Writer,
    shown: &Shown<'_, '_, '_, P>,
    nodes: &[usize],
) -> Result<(), AllocError>
    ensures { OnOk result (Appends writer.old writer.new (spec.route_member (shown_text P.holds shown.now) nodes.now)) }
{
    writer.key("route")?;
    writer.begin_array()?;
    write_steps(writer, shown, nodes)?;
    writer.end_array()
}

/// Returns the id of package `ix`; an empty text, if there is none.
fn id_of<'p>(packages: &'p [Package<'_>], ix: usize) -> &'p str
    ensures { result.now ≡ spec.id_at (map package_text packages.now) ix }
{
    match packages.get(ix) {
        Some(package) => package.id,
        None => "",
    }
}

/// Writes the members of `route`.
fn write_members<P: Platform>(
    writer: &mut Writer,
    shown: &Shown<'_, '_, '_, P>,
    route: &Route,
) -> Result<(), AllocError>
    ensures { OnOk result (Appends writer.old writer.new (spec.members (shown_text P.holds shown.now) (route_text route.now))) }
{
    write_member(writer, "member", id_of(shown.packages, route.owner))?;
    write_route(writer, shown, &route.nodes)
}

/// Appends the line of `route`.
fn push_object<P: Platform>(
    text: Vec<u8>,
    shown: &Shown<'_, '_, '_, P>,
    route: &Route,
) -> Result<Vec<u8>, AllocError>
    ensures { IfOk result (λ new. new.items ≡ text.items ++ spec.route_object (shown_text P.holds shown.now) (route_text route.now)) }
{
    let mut writer = begin_line(text)?;
    write_members(&mut writer, shown, route)?;
    end_line(writer)
}

/// Returns a line for each of `routes`: a JSON object with the member's id and the units of the route.
pub(crate) fn route_objects<P: Platform>(
    alloc: Global,
    shown: &Shown<'_, '_, '_, P>,
    routes: &[Route],
) -> Result<Vec<u8>, AllocError>
    ensures { IfOk result (λ text. text.items ≡ flat_map (spec.route_object (shown_text P.holds shown.now)) (map route_text routes.now)) }
{
    let mut text = Vec::new(alloc);
    for route in routes {
        text = push_object(text, shown, route)?;
    }
    Ok(text)
}
