//! Edges by number. Equal edges may share storage.
ghost use Rattle.std.specs.Prelude.{◌≡◌, ◌++◌, ◌∷◌, ◌<◌, [], None, Some, IfOk, OnOk, length, map, not, position, slice_get};
ghost use Rattle.std.specs.Option.{option_map};
ghost use Rattle.feature_links.specs.declared.edge.EdgeChoice.TheVariants.{FeatureToBaseAndNamed};
ghost use Rattle.feature_edges.specs.Choices.{is_chosen};
ghost use Rattle.feature_edges.specs.inner.Pools.{fixed_place, IsParted, Keeps};
ghost use Rattle.feature_links.specs.Facts.{EdgeFacts, base_edge, feature_edge, has_present_link};
ghost use Rattle.feature_links.specs.Values.{edge_facts};

use feature_links::FeatureEdge;
use std::alloc::{AllocError, Global};
use std::marker::Model;

/// Edges by number, each with an index into a pool. Indices 0 and 1 are the unconditional edges; a repeated edge shares the index
/// of the one that it repeats. A contract sees the list of edges as plain values.
#[derive(Drop)]
pub struct EdgeList {
    pool: Vec<FeatureEdge>,
    places: Vec<u32>,
}

impl Model for EdgeList {
    ghost use Rattle.std.specs.Prelude.{◌≡◌, List, length};
    ghost use Rattle.feature_links.specs.Facts.{EdgeFacts};
    ghost use Rattle.feature_edges.specs.inner.Pools.{AreWithin, IsParted, facts_at};

    ghost Value = { List EdgeFacts };

    ghost view = { λ l. facts_at l.pool.items l.places.items };

    ghost invariant = { λ l. AreWithin l.pool.items l.places.items × IsParted l.pool.items };
}

/// Returns a pool with the unconditional edges and capacity for `room` edges.
fn fixed_edges(alloc: Global, room: usize) -> Result<Vec<FeatureEdge>, AllocError>
    ensures { IfOk result (λ pool. IsParted pool.items) }
{
    let mut pool = Vec::with_capacity(alloc, room)?;
    pool.push(FeatureEdge::FeatureToBase)?;
    pool.push(FeatureEdge::NamedFeature)?;
    Ok(pool)
}

/// Returns the index of an unconditional edge, which is the same in each pool; `None` for a conditional edge.
fn fixed_place(edge: &FeatureEdge) -> Option<u32>
    ensures { result ≡ fixed_place (edge_facts edge.now) }
{
    match edge {
        FeatureEdge::FeatureToBase => Some(0),
        FeatureEdge::NamedFeature => Some(1),
        FeatureEdge::DependenciesSection(_)
        | FeatureEdge::NamedFeatureDepColon(_)
        | FeatureEdge::NamedFeatureWithSlash(_)
        | FeatureEdge::NamedFeatureWithWeakSlash(_) => None,
    }
}

/// Appends a conditional edge and returns its index. Returns `AllocError` if an allocation fails or the index doesn't fit in 32
/// bits.
fn place_after(pool: &mut Vec<FeatureEdge>, edge: FeatureEdge) -> Result<u32, AllocError>
    requires conditional { fixed_place (edge_facts edge) ≡ None }
    requires parted { IsParted pool.old.items }
    ensures parted { IsParted pool.new.items }
    ensures kept { Keeps pool.old.items pool.new.items }
    ensures place { IfOk result (λ place. slice_get (map edge_facts pool.new.items) place ≡ Some (edge_facts edge)) }
{
    let place = pool.len();
    if place > u32::MAX as usize {
        return Err(AllocError);
    }
    pool.push(edge)?;
    Ok(place as u32)
}

/// Returns the index of `edge`, which is appended if it is conditional.
fn place_of(pool: &mut Vec<FeatureEdge>, edge: FeatureEdge) -> Result<u32, AllocError>
    requires { IsParted pool.old.items }
    ensures parted { IsParted pool.new.items }
    ensures kept { Keeps pool.old.items pool.new.items }
    ensures place { IfOk result (λ place. slice_get (map edge_facts pool.new.items) place ≡ Some (edge_facts edge)) }
{
    match fixed_place(&edge) {
        Some(place) => Ok(place),
        None => place_after(pool, edge),
    }
}

impl EdgeList {
    /// Returns an empty list with capacity for `room` edges, and for `own` conditional edges in the pool.
    pub(crate) fn with_capacity(
        alloc: Global,
        room: usize,
        own: usize,
    ) -> Result<EdgeList, AllocError>
        ensures { IfOk result (λ edges. edges ≡ []) }
    {
        let pool = fixed_edges(alloc, own.saturating_add(2))?;
        let places = Vec::with_capacity(alloc, room)?;
        Ok(EdgeList { pool, places })
    }

    /// Appends `edge`.
    pub(crate) fn push(&mut self, edge: FeatureEdge) -> Result<(), AllocError>
        ensures { OnOk result (self.new ≡ self.old ++ edge_facts edge ∷ []) }
    {
        let place = place_of(&mut self.pool, edge)?;
        self.places.push(place)?;
        Ok(())
    }

    /// Appends an edge to a base.
    #[inline]
    pub(crate) fn push_base(&mut self) -> Result<(), AllocError>
        ensures { OnOk result (self.new ≡ self.old ++ base_edge ∷ []) }
    {
        self.places.push(0)?;
        Ok(())
    }

    /// Appends an edge to a named feature.
    #[inline]
    pub(crate) fn push_named(&mut self) -> Result<(), AllocError>
        ensures { OnOk result (self.new ≡ self.old ++ feature_edge ∷ []) }
    {
        self.places.push(1)?;
        Ok(())
    }

    /// Appends edge `number` again, which shares its index.
    pub(crate) fn repeat(&mut self, number: usize) -> Result<(), AllocError>
        requires { number < length self.now }
        ensures { OnOk result ((f : EdgeFacts) → slice_get self.old number ≡ Some f → self.new ≡ self.old ++ f ∷ []) }
    {
        let place = self.places[number];
        self.places.push(place)?;
        Ok(())
    }

    /// Returns the number of edges.
    pub fn len(&self) -> usize
        ensures { result ≡ length self.now }
    {
        self.places.len()
    }

    /// Returns edge `number`.
    pub fn get(&self, number: usize) -> &FeatureEdge
        requires { number < length self.now }
        ensures { slice_get self.now number ≡ Some (edge_facts result.now) }
    {
        let place = self.places[number];
        &self.pool[place as usize]
    }

    /// Returns whether edge `number` is unconditional. Only its index is read.
    pub fn is_unconditional(&self, number: usize) -> bool
        requires { number < length self.now }
        ensures { Some result ≡ option_map (is_chosen FeatureToBaseAndNamed) (slice_get self.now number) }
    {
        self.places[number] < 2
    }
}

/// Returns the number of the first conditional edge whose link is present for no kind of dependency.
pub fn first_absent(edges: &EdgeList) -> Option<usize>
    ensures { result ≡ position (λ f. not (has_present_link f)) edges.now }
{
    for number in 0..edges.len() {
        if !edges.get(number).has_present_link() {
            return Some(number);
        }
    }
    None
}
