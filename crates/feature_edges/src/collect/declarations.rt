//! The candidates that declarations of links contribute, as keys, and the warnings of the names that they list.
ghost use Rattle.std.specs.Prelude.{◌≡◌, ◌<◌, ◌↔◌, ℕ, Contains, OnOk, Some, [], flat_map, length, slice_get};
ghost use Rattle.guppy_packages.specs.Tables.{LinkTable};
ghost use Rattle.guppy_packages.specs.Metadata.{link_graph_of, link_number_of, link_table_of};
ghost use Rattle.guppy_packages.specs.Stored.{declared};
ghost use Rattle.feature_links.specs.Links.{IsLink};
ghost use Rattle.feature_edges.specs.Nodes.{NodeAt};
ghost use Rattle.feature_edges.specs.Warnings.{lack_over, of_link};
ghost use Rattle.feature_edges.specs.inner.Collects.{Collects, links_from};
ghost use Rattle.feature_edges.specs.inner.GateNodes.{AreGateNodes};
ghost use Rattle.feature_edges.specs.inner.Parts.{start_of, IsRequest, IsOfDeclarationAt, IsOfLinkAt, IsLinkFrom};

use crate::candidate::CandidateKind;
use crate::collect::Collected;
use crate::collect::features::push_to;
use crate::collect::package_input::PackageInput;
use crate::default_nodes::default_at;
use crate::gate_nodes::gate_at;
use crate::node_numbers::Numbers;
use crate::warnings::push_lack;
use guppy_packages::{Declaration, PackageLink};
use std::alloc::AllocError;

/// Appends the keys of the nodes of the target of `link` that `declaration` requests, and a warning for each feature that the
/// declaration lists and the target doesn't have.
fn push_requests(
    collected: &mut Collected,
    input: PackageInput<'_, '_>,
    link: PackageLink<'_>,
    from: usize,
    place: usize,
    declaration: &Declaration,
) -> Result<(), AllocError>
    requires { link_graph_of link ≡ input.numbers.graph.now }
    ensures { OnOk result (Collects (IsRequest input.entry.numbers.graph.now from (link_table_of link.entry).to (link_number_of link.entry) place (declared declaration.now)) [] (flat_map (lack_over input.entry.numbers.graph.now (link_table_of link.entry)) (declared declaration.now).features) collected.old collected.new) }
{
    let numbers = input.numbers;
    let link_ix = link.link_ix();
    let target = link.to();
    let kind = CandidateKind::Section;
    let keys = &mut collected.keys;
    push_to(keys, from, Some(numbers.base(target)), kind, link_ix, place)?;
    if declaration.default_features() {
        let to = default_at(numbers, input.defaults, target);
        push_to(keys, from, to, kind, link_ix, place)?;
    }
    for ix in 0..declaration.feature_count() {
        let name = declaration.feature(ix);
        let to = numbers.named(target, name);
        push_to(&mut collected.keys, from, to, kind, link_ix, place)?;
        let warnings = &mut collected.name_warnings;
        push_lack(input.alloc, warnings, target, name, to.is_some())?;
    }
    Ok(())
}

/// Returns the source node of a declaration of `link`: the optional dependency if it is optional, and otherwise the base. `gates`
/// has the gate of each package link.
fn start<'g>(
    numbers: Numbers<'g>,
    gates: &[u32],
    link: PackageLink<'g>,
    declaration: &Declaration,
) -> usize
    requires graph { link_graph_of link ≡ numbers.graph.now }
    requires gates { AreGateNodes numbers.graph.now gates.now }
    requires declaration { Contains (link_table_of link).declarations (declared declaration.now) }
    ensures { (n : ℕ) → (result ≡ n) ↔ NodeAt numbers.entry.graph.now n (link_table_of link.entry).from (start_of (link_table_of link.entry) (declared declaration.now)) }
{
    numbers.graph.facts();
    if !declaration.optional() {
        return numbers.base(link.from());
    }
    gate_at(numbers, gates, link.link_ix())
}

/// Appends the keys and warnings of `declaration`, which is the one at `place` of `link`.
fn push_declaration(
    collected: &mut Collected,
    input: PackageInput<'_, '_>,
    link: PackageLink<'_>,
    place: usize,
    declaration: &Declaration,
) -> Result<(), AllocError>
    requires graph { link_graph_of link ≡ input.numbers.graph.now }
    requires declaration { slice_get (link_table_of link).declarations place ≡ Some (declared declaration.now) }
    ensures { OnOk result (Collects (IsOfDeclarationAt input.entry.numbers.graph.now (link_number_of link.entry) (link_table_of link.entry) place) [] (flat_map (lack_over input.entry.numbers.graph.now (link_table_of link.entry)) (declared declaration.now).features) collected.old collected.new) }
{
    let from = start(input.numbers, input.gates, link, declaration);
    push_requests(collected, input, link, from, place, declaration)
}

/// Appends the keys and warnings of the declarations of link `ix`.
fn push_link(
    collected: &mut Collected,
    input: PackageInput<'_, '_>,
    ix: usize,
) -> Result<(), AllocError>
    requires { ix < length input.numbers.graph.now.links }
    ensures { OnOk result ((link : LinkTable) → IsLink input.entry.numbers.graph.now ix link → Collects (IsOfLinkAt input.entry.numbers.graph.now ix) [] (of_link input.entry.numbers.graph.now link) collected.old collected.new) }
{
    let link = input.numbers.graph.link(ix);
    let declarations = link.declarations();
    for place in 0..declarations.len() {
        push_declaration(collected, input, link, place, &declarations[place])?;
    }
    Ok(())
}

/// Appends the keys and warnings of the links that leave a package.
pub(crate) fn push_links(
    collected: &mut Collected,
    input: PackageInput<'_, '_>,
) -> Result<(), AllocError>
    ensures { OnOk result (Collects (λ x. (k : ℕ) × IsLinkFrom input.entry.numbers.graph.now input.entry.metadata.package_ix k × IsOfLinkAt input.entry.numbers.graph.now k x) [] (flat_map (of_link input.entry.numbers.graph.now) (links_from input.entry.numbers.graph.now input.entry.metadata.package_ix)) collected.old collected.new) }
{
    let links = input.metadata.direct_links();
    for ix in links.start..links.end {
        push_link(collected, input, ix)?;
    }
    Ok(())
}
