//! Links over declarations of package links.
ghost use Rattle.std.specs.Prelude.{◌≡◌, ◌++◌, ◌∷◌, ◌<◌, [], ℕ, Bool, true, if◌then◌else◌, List, Some, IfOk, IfSome, OnOk, length, map, filter, is_some, slice_get};
ghost use Rattle.std.specs.List.{list_any};
ghost use Rattle.guppy_packages.specs.Metadata.{link_table_of};
ghost use Rattle.guppy_packages.specs.Rows.{Declared};
ghost use Rattle.guppy_packages.specs.Stored.{declared};
ghost use Rattle.guppy_packages.specs.Tables.{LinkTable};
ghost use Rattle.feature_links.specs.Links.{by_name, half_of, IsLink, includes, links_at, at_places, over, over_parts, ArePassing};
ghost use Rattle.feature_links.specs.inner.Collected.{HasKinds, HasParts, wanted, wanted_parts};
ghost use Rattle.feature_links.specs.NamedLinks.{AreNamedLinks};
ghost use Rattle.feature_links.specs.Values.{link_facts, half_facts};

use crate::link::held::{LinkStatuses, SharedStatuses};
use crate::link::statuses::KindCollectors;
use crate::link::{ConditionalLinkImpl, EnabledLink};
use crate::link_groups::LinkGroups;
use crate::links_by_name::numbers_of;
use feature_labels::LinkDeclarations;
use guppy_packages::{Declaration, PackageGraph, PackageLink};
use smallvec::SmallVec;
use std::alloc::{AllocError, Global};

/// A link under construction: the statuses of its declarations so far, and the package links that have one of them.
#[derive(Drop)]
struct LinkParts<'g> {
    statuses: KindCollectors<'g>,
    links: SmallVec<usize, 1>,
}

/// Returns whether `which` covers `declaration`.
fn is_included(which: LinkDeclarations, declaration: &Declaration) -> bool
    ensures { result ≡ includes which (declared declaration.now) }
{
    match which {
        LinkDeclarations::Unsplit => true,
        LinkDeclarations::Required => !declaration.optional(),
        LinkDeclarations::Optional => declaration.optional(),
    }
}

/// Returns whether `which` covers one of `declarations`.
pub fn is_any_included(which: LinkDeclarations, declarations: &[Declaration]) -> bool
    ensures { result ≡ list_any (λ d. includes which (declared d)) declarations.now }
{
    for declaration in declarations {
        if is_included(which, declaration) {
            return true;
        }
    }
    false
}

/// Adds `declaration` to `statuses` if `which` covers it, and returns whether it does.
fn add_included<'g>(
    statuses: &mut KindCollectors<'g>,
    declaration: &'g Declaration,
    which: LinkDeclarations,
) -> Result<bool, AllocError>
    ensures kinds { OnOk result ((before : List Declared) → HasKinds statuses.old before → HasKinds statuses.new (before ++ filter (λ d. includes which d) (map declared (declaration.now ∷ [])))) }
    ensures added { IfOk result (λ added. added ≡ includes which (declared declaration.now)) }
{
    if is_included(which, declaration) {
        statuses.add(declaration)?;
        return Ok(true);
    }
    Ok(false)
}

/// Adds the declarations that `which` covers to `statuses`, and returns whether there is one.
fn add_all_included<'g>(
    statuses: &mut KindCollectors<'g>,
    declarations: &'g [Declaration],
    which: LinkDeclarations,
) -> Result<bool, AllocError>
    ensures kinds { OnOk result ((before : List Declared) → HasKinds statuses.old before → HasKinds statuses.new (before ++ filter (λ d. includes which d) (map declared declarations.now))) }
    ensures added { IfOk result (λ added. added ≡ list_any (λ d. true) (filter (λ d. includes which d) (map declared declarations.now))) }
{
    let mut any = false;
    for declaration in declarations {
        let added = add_included(statuses, declaration, which)?;
        any |= added;
    }
    Ok(any)
}

/// Adds declaration `place` to `statuses` if there is one, and returns whether there is.
fn add_at<'g>(
    statuses: &mut KindCollectors<'g>,
    declarations: &'g [Declaration],
    place: usize,
) -> Result<bool, AllocError>
    ensures kinds { OnOk result ((before : List Declared) → HasKinds statuses.old before → HasKinds statuses.new (before ++ at_places (map declared declarations.now) (place ∷ []))) }
    ensures added { IfOk result (λ added. added ≡ is_some (slice_get (map declared declarations.now) place)) }
{
    if place < declarations.len() {
        statuses.add(&declarations[place])?;
        return Ok(true);
    }
    Ok(false)
}

/// Adds the declarations at `places` to `statuses`, in that order, and returns whether there is one.
fn add_all_at<'g>(
    statuses: &mut KindCollectors<'g>,
    declarations: &'g [Declaration],
    places: &[usize],
) -> Result<bool, AllocError>
    ensures kinds { OnOk result ((before : List Declared) → HasKinds statuses.old before → HasKinds statuses.new (before ++ at_places (map declared declarations.now) places.now)) }
    ensures added { IfOk result (λ added. added ≡ list_any (λ d. true) (at_places (map declared declarations.now) places.now)) }
{
    let mut any = false;
    for place in places {
        let added = add_at(statuses, declarations, *place)?;
        any |= added;
    }
    Ok(any)
}

impl<'g> LinkParts<'g> {
    /// Returns a link with no declarations.
    fn new(alloc: Global) -> Self
        ensures { HasParts result [] }
    {
        LinkParts {
            statuses: KindCollectors::new(alloc),
            links: SmallVec::new(alloc),
        }
    }

    /// Appends `link_ix` to the package links if `added` is true: one of its declarations was added.
    fn note(&mut self, link_ix: usize, added: bool) -> Result<(), AllocError>
        ensures links { OnOk result (self.new.links.items ≡ (if added then self.old.links.items ++ link_ix ∷ [] else self.old.links.items)) }
        ensures statuses { self.new.statuses ≡ self.old.statuses }
    {
        if added {
            self.links.push(link_ix)?;
        }
        Ok(())
    }

    /// Adds the declarations of `link` that `which` covers.
    fn add_link(&mut self, link: PackageLink<'g>, which: LinkDeclarations) -> Result<(), AllocError>
        ensures { OnOk result ((before : List (ℕ × List Declared)) → HasParts self.old before → HasParts self.new (before ++ (link.entry.link_ix, filter (λ d. includes which d) (link_table_of link.entry).declarations) ∷ [])) }
    {
        let added = add_all_included(&mut self.statuses, link.declarations(), which)?;
        self.note(link.link_ix(), added)
    }

    /// Adds the declarations of `link` at `places`.
    fn add_places(&mut self, link: PackageLink<'g>, places: &[usize]) -> Result<(), AllocError>
        ensures { OnOk result ((before : List (ℕ × List Declared)) → HasParts self.old before → HasParts self.new (before ++ (link.entry.link_ix, at_places (link_table_of link.entry).declarations places.now) ∷ [])) }
    {
        let added = add_all_at(&mut self.statuses, link.declarations(), places)?;
        self.note(link.link_ix(), added)
    }

    /// Returns the finished link; `which` is recorded as the declarations that it covers.
    fn into_link(
        self,
        alloc: Global,
        which: LinkDeclarations,
    ) -> Result<ConditionalLinkImpl, AllocError>
        ensures { IfOk result (λ l. (parts : List (ℕ × List Declared)) → HasParts self.entry parts → link_facts l ≡ over_parts which parts) }
    {
        let LinkParts { statuses, links } = self;
        Ok(ConditionalLinkImpl {
            statuses: statuses.statuses(alloc, which)?,
            package_link_ixs: links,
        })
    }

    /// Adds declarations of `link`: those at `places` if it is `Some`, and otherwise those that `which` covers.
    fn add(
        &mut self,
        link: PackageLink<'g>,
        which: LinkDeclarations,
        places: Option<&[usize]>,
    ) -> Result<(), AllocError>
        ensures { OnOk result ((before : List (ℕ × List Declared)) → HasParts self.old before → HasParts self.new (before ++ (link.entry.link_ix, wanted which places.entry (link_table_of link.entry)) ∷ [])) }
    {
        match places {
            Some(places) => self.add_places(link, places),
            None => self.add_link(link, which),
        }
    }

    /// Adds the declarations of each of `links`, as `add` does.
    fn add_all(
        &mut self,
        graph: &'g PackageGraph,
        links: &[usize],
        which: LinkDeclarations,
        places: Option<&[usize]>,
    ) -> Result<(), AllocError>
        requires { (i k : ℕ) → slice_get links.now i ≡ Some k → k < length graph.now.links }
        ensures { OnOk result (HasParts self.old [] → HasParts self.new (wanted_parts which places.entry (links_at graph.now links.now))) }
    {
        for link_ix in links {
            self.add(graph.link(*link_ix), which, places)?;
        }
        Ok(())
    }
}

/// Collects the declarations of `links`, as `add` does, and returns the link over them.
fn collected(
    alloc: Global,
    graph: &PackageGraph,
    links: &[usize],
    which: LinkDeclarations,
    places: Option<&[usize]>,
) -> Result<ConditionalLinkImpl, AllocError>
    requires { (i k : ℕ) → slice_get links.now i ≡ Some k → k < length graph.now.links }
    ensures { IfOk result (λ l. link_facts l ≡ over_parts which (wanted_parts which places.entry (links_at graph.now links.now))) }
{
    let mut parts = LinkParts::new(alloc);
    parts.add_all(graph, links, which, places)?;
    parts.into_link(alloc, which)
}

/// Returns the link over one declaration of package link `link_ix`.
fn link_over_one(
    alloc: Global,
    shared: &SharedStatuses,
    link_ix: usize,
    which: LinkDeclarations,
    declaration: &Declaration,
) -> Result<ConditionalLinkImpl, AllocError>
    ensures { IfOk result (λ l. link_facts l ≡ over_parts which ((link_ix, declared declaration.now ∷ []) ∷ [])) }
{
    Ok(ConditionalLinkImpl {
        statuses: LinkStatuses::of_one(alloc, shared, which, declaration)?,
        package_link_ixs: SmallVec::from_buf(alloc, [link_ix]),
    })
}

/// Returns the declaration if there is exactly one and `which` covers it.
fn only_included(which: LinkDeclarations, declarations: &[Declaration]) -> Option<&Declaration>
    ensures { IfSome result (λ d. filter (λ d. includes which d) (map declared declarations.now) ≡ declared d.now ∷ []) }
{
    let [declaration] = declarations else {
        return None;
    };
    if is_included(which, declaration) {
        return Some(declaration);
    }
    None
}

/// Returns the link over the declarations of `links` that `which` covers. A single declaration is not collected.
fn links_over(
    alloc: Global,
    graph: &PackageGraph,
    shared: &SharedStatuses,
    links: &[usize],
    which: LinkDeclarations,
) -> Result<ConditionalLinkImpl, AllocError>
    requires { (i k : ℕ) → slice_get links.now i ≡ Some k → k < length graph.now.links }
    ensures { IfOk result (λ l. link_facts l ≡ over which (λ d. includes which d) (links_at graph.now links.now)) }
{
    if let [link_ix] = links {
        let declarations = graph.link(*link_ix).declarations();
        if let Some(declaration) = only_included(which, declarations) {
            return link_over_one(alloc, shared, *link_ix, which, declaration);
        }
    }
    collected(alloc, graph, links, which, None)
}

/// Returns the link over the declarations of package link `link_ix` that `which` covers. `AllocError` is the only error.
pub fn link_of(
    alloc: Global,
    graph: &PackageGraph,
    shared: &SharedStatuses,
    link_ix: usize,
    which: LinkDeclarations,
) -> Result<ConditionalLinkImpl, AllocError>
    requires { link_ix < length graph.now.links }
    ensures { IfOk result (λ l. (link : LinkTable) → IsLink graph.now link_ix link → link_facts l ≡ over which (λ d. includes which d) ((link_ix, link) ∷ [])) }
{
    let links = [link_ix];
    links_over(alloc, graph, shared, &links, which)
}

/// Returns the half of a weak edge over the declarations of package link `link_ix` that `which` covers. `AllocError` is the only
/// error.
pub fn half_of(
    alloc: Global,
    graph: &PackageGraph,
    shared: &SharedStatuses,
    link_ix: usize,
    which: LinkDeclarations,
) -> Result<EnabledLink, AllocError>
    requires { link_ix < length graph.now.links }
    ensures { IfOk result (λ half. half_facts half ≡ half_of graph.now which link_ix) }
{
    if !is_any_included(which, graph.link(link_ix).declarations()) {
        return Ok(EnabledLink { link: None });
    }
    let link = link_of(alloc, graph, shared, link_ix, which)?;
    Ok(EnabledLink {
        link: Some(Box::new(alloc, link)?),
    })
}

/// Returns the link over the declarations that `which` covers, of all links that leave package `package_ix` under `name`.
/// `AllocError` is the only error.
pub fn named_link(
    alloc: Global,
    graph: &PackageGraph,
    groups: &LinkGroups<'_>,
    shared: &SharedStatuses,
    package_ix: usize,
    name: &str,
    which: LinkDeclarations,
) -> Result<ConditionalLinkImpl, AllocError>
    requires { AreNamedLinks graph.now groups.now }
    ensures { IfOk result (λ l. link_facts l ≡ by_name graph.now package_ix which name.now) }
{
    let links = numbers_of(groups, package_ix, name);
    links_over(alloc, graph, shared, links, which)
}

/// Returns the link over the declarations at `places` of package link `link_ix`. A single declaration is not collected.
/// `AllocError` is the only error.
pub fn section_link(
    alloc: Global,
    graph: &PackageGraph,
    shared: &SharedStatuses,
    link_ix: usize,
    which: LinkDeclarations,
    places: &[usize],
) -> Result<ConditionalLinkImpl, AllocError>
    requires { link_ix < length graph.now.links }
    ensures { IfOk result (λ l. (link : LinkTable) (passes : Declared → Bool) → IsLink graph.now link_ix link → ArePassing passes link.declarations places.now → link_facts l ≡ over which passes ((link_ix, link) ∷ [])) }
{
    let declarations = graph.link(link_ix).declarations();
    if let [place] = places
        && *place < declarations.len()
    {
        return link_over_one(alloc, shared, link_ix, which, &declarations[*place]);
    }
    let links = [link_ix];
    collected(alloc, graph, &links, which, Some(places))
}
