//! The state of a walk: its findings, and the conditions of edges that are met so far.

ghost use Rattle.std.specs.Prelude.{Some, None, ◌≡◌, ◌+◌, ◌^◌, ◌<◌, ◌≤◌, ℕ, suc, Bool, false, List, IsTrue, IsFalse, IfOk, OnOk, OnErr, length, slice_get};
ghost use Rattle.digraphs.specs.Bits.{has};
ghost use Rattle.walk_engine.specs.Walks.{Content, EndsAreNodes, IsWalk, LegalRun, MayAsk, ReadsAreBounded};
ghost use Rattle.walk_engine.specs.Explanations.{IsExplainedWalk};
ghost use Rattle.walk_engine.specs.inner.WalkProgress.{IsListed, HasRoom, Asks, Comes, findings, noted, edges_by, FollowsEdge, Extends, FollowsAll, FollowsStopped, Begun, IsDone, reads_of};
ghost use Rattle.walk_engine.specs.declared.walks.progress.Condition.TheVariants.{Start, Gate};

use super::{Ask, EdgeSource, Half, Offerer, Step, StepReason};
use digraphs::IxBitSet;
use std::alloc::{AllocError, Global};

/// The condition of an edge that a node meets: the edge starts there, or the node is its gate.
#[derive(Clone, Copy)]
enum Condition {
    Start,
    Gate,
}

/// The findings of a walk: the members, as a set and in the order in which they were reached. If `explains`,
/// also the reason for each member, and the refused offers.
#[derive(Drop)]
pub(super) struct Found {
    pub(super) members: IxBitSet,
    pub(super) order: Vec<usize>,
    pub(super) explains: bool,
    pub(super) steps: Vec<Step>,
    pub(super) refused: Vec<(usize, Half)>,
}

/// Reserves room for the findings of one edge. An allocation failure is the only error.
fn make_room(found: &mut Found) -> Result<(), AllocError>
    ensures room { OnOk result (HasRoom 2 found.new) }
    ensures same { findings found.new ≡ findings found.old }
{
    found.order.reserve(2)?;
    if found.explains {
        found.steps.reserve(2)?;
        found.refused.reserve(2)?;
    }
    Ok(())
}

/// Adds `node` with `reason`, if it isn't a member yet.
fn note(found: &mut Found, node: usize, reason: StepReason)
    requires node { node < length found.old.members }
    requires listed { IsListed (findings found.old) }
    requires room { HasRoom 1 found.old }
    ensures listed { IsListed (findings found.new) }
    ensures room { (k : ℕ) → HasRoom (suc k) found.old → HasRoom k found.new }
    ensures size { length found.new.members ≡ length found.old.members }
    ensures noted { findings found.new ≡ noted (findings found.old) node reason }
{
    if found.members.contains(node) {
        return;
    }
    found.members.insert(node);
    found.order.push_reserved(node);
    if found.explains {
        found.steps.push_reserved(Step { node, reason });
    }
}

/// Makes the offer if `wanted`. Then adds `far` to the members, or the offer to the refused ones.
fn offer_if<O: Offerer>(
    wanted: bool,
    offerer: &mut O,
    found: &mut Found,
    edge: usize,
    half: Half,
    far: usize,
)
    requires may { IsTrue wanted → O.can_offer offerer.old edge half }
    requires node { far < length found.old.members }
    requires listed { IsListed (findings found.old) }
    requires room { HasRoom 1 found.old }
    ensures listed { IsListed (findings found.new) }
    ensures room { (k : ℕ) → HasRoom (suc k) found.old → HasRoom k found.new }
    ensures size { length found.new.members ≡ length found.old.members }
    ensures asked { Asks O.gives wanted edge half far
        offerer.old (findings found.old) offerer.new (findings found.new) }
{
    if !wanted {
        return;
    }
    if offerer.offer(edge, half) {
        note(found, far, StepReason::Offer(edge, half));
    } else if found.explains {
        found.refused.push_reserved((edge, half));
    }
}

/// Notes that the start or the gate of `edge` was reached, if its optional half waits for both. Returns true if
/// nothing is missing now.
fn is_ready(met: &mut IxBitSet, edge: usize, gated: bool) -> bool
    requires { edge < length met.old }
    ensures { Comes gated edge met.old result met.new }
{
    if !gated {
        return true;
    }
    let ready = met.contains(edge);
    met.insert(edge);
    ready
}

/// Takes the edge at `place` of the member `node`, and makes the offers that are due because of it. Returns
/// false if there is no such edge.
fn take_one<S: EdgeSource, O: Offerer>(
    source: &mut S,
    offerer: &mut O,
    found: &mut Found,
    met: &mut IxBitSet,
    node: usize,
    place: usize,
) -> bool
    requires nodes { EndsAreNodes (S.content source.old) }
    requires node { node < (S.content source.old).nodes }
    requires few { S.reads source.old < 2 ^ 100 }
    requires may { MayAsk O.can_offer O.gives (S.content source.old) offerer.old }
    requires members { length found.old.members ≡ (S.content source.old).nodes }
    requires edges { length met.old ≡ length (S.content source.old).ways }
    requires listed { IsListed (findings found.old) }
    requires room { HasRoom 2 found.old }
    ensures same { S.content source.new ≡ S.content source.old }
    ensures read { S.reads source.new ≡ S.reads source.old + 1 }
    ensures may { MayAsk O.can_offer O.gives (S.content source.old) offerer.new }
    ensures members { length found.new.members ≡ length found.old.members }
    ensures edges { length met.new ≡ length met.old }
    ensures listed { IsListed (findings found.new) }
    ensures grown { Extends (findings found.old) (findings found.new) }
    ensures taken { IsTrue result → (e : ℕ)
        × (slice_get (edges_by Start (S.content source.old) node) place ≡ Some e)
        × FollowsEdge Start (S.content source.old) O.gives node e
        offerer.old (findings found.old) met.old offerer.new (findings found.new) met.new }
    ensures ended { IsFalse result → (slice_get (edges_by Start (S.content source.old) node) place ≡ None)
        × (offerer.new ≡ offerer.old) × (findings found.new ≡ findings found.old) × (met.new ≡ met.old) }
{
    match source.take(node, place) {
        None => false,
        Some(taken) => {
            match taken.ask {
                Ask::Nobody => note(found, taken.far, StepReason::Edge(taken.edge)),
                Ask::Full => offer_if(true, offerer, found, taken.edge, Half::Full, taken.far),
                Ask::Weak { required, gated } => {
                    offer_if(
                        required,
                        offerer,
                        found,
                        taken.edge,
                        Half::Required,
                        taken.far,
                    );
                    let ready = is_ready(met, taken.edge, gated);
                    offer_if(ready, offerer, found, taken.edge, Half::Optional, taken.far);
                }
            }
            true
        }
    }
}

/// Releases the edge at `place` of the gate `node`, and makes the offer that is due because of it. Returns
/// false if there is no such edge.
fn release_one<S: EdgeSource, O: Offerer>(
    source: &mut S,
    offerer: &mut O,
    found: &mut Found,
    met: &mut IxBitSet,
    node: usize,
    place: usize,
) -> bool
    requires nodes { EndsAreNodes (S.content source.old) }
    requires node { node < (S.content source.old).nodes }
    requires few { S.reads source.old < 2 ^ 100 }
    requires may { MayAsk O.can_offer O.gives (S.content source.old) offerer.old }
    requires members { length found.old.members ≡ (S.content source.old).nodes }
    requires edges { length met.old ≡ length (S.content source.old).ways }
    requires listed { IsListed (findings found.old) }
    requires room { HasRoom 2 found.old }
    ensures same { S.content source.new ≡ S.content source.old }
    ensures read { S.reads source.new ≡ S.reads source.old + 1 }
    ensures may { MayAsk O.can_offer O.gives (S.content source.old) offerer.new }
    ensures members { length found.new.members ≡ length found.old.members }
    ensures edges { length met.new ≡ length met.old }
    ensures listed { IsListed (findings found.new) }
    ensures grown { Extends (findings found.old) (findings found.new) }
    ensures taken { IsTrue result → (e : ℕ)
        × (slice_get (edges_by Gate (S.content source.old) node) place ≡ Some e)
        × FollowsEdge Gate (S.content source.old) O.gives node e
        offerer.old (findings found.old) met.old offerer.new (findings found.new) met.new }
    ensures ended { IsFalse result → (slice_get (edges_by Gate (S.content source.old) node) place ≡ None)
        × (offerer.new ≡ offerer.old) × (findings found.new ≡ findings found.old) × (met.new ≡ met.old) }
{
    match source.release(node, place) {
        None => false,
        Some(taken) => {
            let ready = is_ready(met, taken.edge, true);
            offer_if(ready, offerer, found, taken.edge, Half::Optional, taken.far);
            true
        }
    }
}

/// Follows the edge at `place` whose `condition` the member `node` meets, and makes the offers that are due
/// because of it. Returns false if there is no such edge.
fn follow_one<S: EdgeSource, O: Offerer>(
    condition: Condition,
    source: &mut S,
    offerer: &mut O,
    found: &mut Found,
    met: &mut IxBitSet,
    node: usize,
    place: usize,
) -> bool
    requires nodes { EndsAreNodes (S.content source.old) }
    requires node { node < (S.content source.old).nodes }
    requires few { S.reads source.old < 2 ^ 100 }
    requires may { MayAsk O.can_offer O.gives (S.content source.old) offerer.old }
    requires members { length found.old.members ≡ (S.content source.old).nodes }
    requires edges { length met.old ≡ length (S.content source.old).ways }
    requires listed { IsListed (findings found.old) }
    requires room { HasRoom 2 found.old }
    ensures same { S.content source.new ≡ S.content source.old }
    ensures read { S.reads source.new ≡ S.reads source.old + 1 }
    ensures may { MayAsk O.can_offer O.gives (S.content source.old) offerer.new }
    ensures members { length found.new.members ≡ length found.old.members }
    ensures edges { length met.new ≡ length met.old }
    ensures listed { IsListed (findings found.new) }
    ensures grown { Extends (findings found.old) (findings found.new) }
    ensures taken { IsTrue result → (e : ℕ)
        × (slice_get (edges_by condition (S.content source.old) node) place ≡ Some e)
        × FollowsEdge condition (S.content source.old) O.gives node e
        offerer.old (findings found.old) met.old offerer.new (findings found.new) met.new }
    ensures ended { IsFalse result → (slice_get (edges_by condition (S.content source.old) node) place ≡ None)
        × (offerer.new ≡ offerer.old) × (findings found.new ≡ findings found.old) × (met.new ≡ met.old) }
{
    match condition {
        Condition::Start => take_one(source, offerer, found, met, node, place),
        Condition::Gate => release_one(source, offerer, found, met, node, place),
    }
}

/// Follows all edges whose `condition` the member `node` meets. An allocation failure is the only error.
fn follow_all<S: EdgeSource, O: Offerer>(
    condition: Condition,
    source: &mut S,
    offerer: &mut O,
    found: &mut Found,
    met: &mut IxBitSet,
    node: usize,
) -> Result<(), AllocError>
    requires nodes { EndsAreNodes (S.content source.old) }
    requires node { node < (S.content source.old).nodes }
    requires long { length (S.content source.old).ways < 2 ^ 64 }
    requires few { S.reads source.old + length (S.content source.old).ways < 2 ^ 100 }
    requires may { MayAsk O.can_offer O.gives (S.content source.old) offerer.old }
    requires members { length found.old.members ≡ (S.content source.old).nodes }
    requires edges { length met.old ≡ length (S.content source.old).ways }
    requires listed { IsListed (findings found.old) }
    ensures same { S.content source.new ≡ S.content source.old }
    ensures read { OnOk result (S.reads source.new
        ≡ S.reads source.old + (length (edges_by condition (S.content source.old) node) + 1)) }
    ensures may { MayAsk O.can_offer O.gives (S.content source.old) offerer.new }
    ensures members { length found.new.members ≡ length found.old.members }
    ensures edges { length met.new ≡ length met.old }
    ensures listed { IsListed (findings found.new) }
    ensures grown { Extends (findings found.old) (findings found.new) }
    ensures taken { OnOk result (FollowsAll condition (edges_by condition (S.content source.old) node) (S.content source.old) O.gives node
        offerer.old (findings found.old) met.old offerer.new (findings found.new) met.new) }
    ensures err { OnErr result (FollowsStopped condition (S.content source.old) O.gives node
        offerer.old (findings found.old) met.old offerer.new) }
{
    let mut place = 0;
    make_room(found)?;
    'edges: while follow_one(condition, source, offerer, found, met, node, place) {
        make_room(found)?;
        place += 1;
    }
    Ok(())
}

/// Adds the initial nodes to the members. An allocation failure is the only error.
fn begin(found: &mut Found, initials: &IxBitSet) -> Result<(), AllocError>
    requires members { length found.old.members ≡ length initials.now }
    requires listed { IsListed (findings found.old) }
    requires blank { Begun (λ _. false) (findings found.old) }
    ensures members { length found.new.members ≡ length initials.now }
    ensures listed { IsListed (findings found.new) }
    ensures explains { found.new.explains ≡ found.old.explains }
    ensures begun { OnOk result (Begun (has initials.now) (findings found.new)) }
{
    for node in initials.ones() {
        make_room(found)?;
        note(found, node, StepReason::Initial);
    }
    Ok(())
}

/// Takes and releases the edges of each member, in the order in which the members were reached. An allocation
/// failure is the only error.
fn walk_members<S: EdgeSource, O: Offerer>(
    source: &mut S,
    initials: &IxBitSet,
    offerer: &mut O,
    found: &mut Found,
    met: &mut IxBitSet,
) -> Result<(), AllocError>
    requires nodes { EndsAreNodes (S.content source.old) }
    requires long { length (S.content source.old).ways < 2 ^ 64 }
    requires few { S.reads source.old < 2 ^ 99 }
    requires may { MayAsk O.can_offer O.gives (S.content source.old) offerer.old }
    requires size { length initials.now ≡ (S.content source.old).nodes }
    requires members { length found.old.members ≡ length initials.now }
    requires edges { length met.old ≡ length (S.content source.old).ways }
    requires unmet { (e : ℕ) → IsFalse (has met.old e) }
    requires listed { IsListed (findings found.old) }
    requires blank { Begun (λ _. false) (findings found.old) }
    ensures same { S.content source.new ≡ S.content source.old }
    ensures members { length found.new.members ≡ length initials.now }
    ensures read { OnOk result (S.reads source.new
        ≡ S.reads source.old + reads_of (S.content source.old) found.new.order.items) }
    ensures listed { IsListed (findings found.new) }
    ensures explains { found.new.explains ≡ found.old.explains }
    ensures done { OnOk result (IsDone (S.content source.old) (has initials.now) O.gives offerer.old
        found.new.order.items offerer.new (findings found.new) met.new) }
    ensures err { OnErr result (LegalRun (S.content source.old) (has initials.now) O.gives
        offerer.old offerer.new) }
{
    begin(found, initials)?;
    let mut next = 0;
    'members: while next < found.order.len() {
        let node = found.order[next];
        follow_all(Condition::Start, source, offerer, found, met, node)?;
        follow_all(Condition::Gate, source, offerer, found, met, node)?;
        next += 1;
    }
    Ok(())
}

/// Walks from `initials` and returns the findings, with reasons if `explains`. An allocation failure is the
/// only error.
pub(super) fn walk_found<S: EdgeSource, O: Offerer>(
    alloc: Global,
    source: &mut S,
    initials: &IxBitSet,
    offerer: &mut O,
    explains: bool,
) -> Result<Found, AllocError>
    requires size { length initials.now ≡ (S.content source.old).nodes }
    requires few { S.reads source.old < 2 ^ 99 }
    requires may { MayAsk O.can_offer O.gives (S.content source.old) offerer.old }
    ensures content { S.content source.new ≡ S.content source.old }
    ensures size { IfOk result (λ found. length found.members ≡ (S.content source.old).nodes) }
    ensures walk { IfOk result (λ found. IsWalk (S.content source.old) (has initials.now) O.gives
        offerer.old offerer.new (has found.members)) }
    ensures explained { IsTrue explains → IfOk result (λ found. IsExplainedWalk (S.content source.old) (has initials.now) O.gives
        offerer.old offerer.new (has found.members) found.steps.items found.refused.items) }
    ensures reads { IfOk result (λ found. ReadsAreBounded (S.content source.old) found.members
        (S.reads source.old) (S.reads source.new)) }
    ensures err { OnErr result (LegalRun (S.content source.old) (has initials.now) O.gives offerer.old offerer.new) }
{
    let edges = source.edge_count();
    let members = IxBitSet::empty(alloc, initials.size())?;
    let mut met = IxBitSet::empty(alloc, edges)?;
    let mut found = Found {
        members,
        order: Vec::new(alloc),
        explains,
        steps: Vec::new(alloc),
        refused: Vec::new(alloc),
    };
    walk_members(source, initials, offerer, &mut found, &mut met)?;
    Ok(found)
}
