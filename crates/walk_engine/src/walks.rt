//! Walks over the edges of a source. Before a walk follows a conditional edge, it asks an offerer.

ghost use Rattle.std.specs.Prelude.{◌≡◌, ◌+◌, ◌*◌, ◌^◌, ◌<◌, ◌≤◌, ℕ, Bool, List, IfOk, OnErr, length, slice_get, count_by};
ghost use Rattle.digraphs.specs.Bits.{has};
ghost use Rattle.walk_engine.specs.Walks.{Content, EndsAreNodes, IsWalk, LegalRun, MayAsk, starting, releasing, told, ReadsAreBounded};
ghost use Rattle.walk_engine.specs.Explanations.{IsExplainedWalk};
ghost use Rattle.walk_engine.specs.declared.walks.Half.{Half};

mod progress;

use digraphs::IxBitSet;
use progress::walk_found;
use std::alloc::{AllocError, Global};

/// The part of a conditional edge that an offer is about: its full link, or a half of a weak edge.
#[derive(Clone, Copy, Debug, PartialEq, Eq)]
pub enum Half {
    /// The full link of an edge that isn't weak.
    Full,
    /// The required half of a weak edge.
    Required,
    /// The optional half of a weak edge.
    Optional,
}

/// The offers that an edge needs before it is followed.
#[derive(Clone, Copy, Debug, PartialEq, Eq)]
pub enum Ask {
    /// None: the edge is unconditional.
    Nobody,
    /// One offer: the full link.
    Full,
    /// The offers of a weak edge. Its required half is offered if `required`; its optional half always, and
    /// after the edge's gate is reached if `gated`.
    Weak { required: bool, gated: bool },
}

/// An edge as a source returns it: its number, its far end, and the offers it needs.
#[derive(Clone, Copy, Debug, PartialEq, Eq)]
pub struct Taken {
    pub edge: usize,
    pub far: usize,
    pub ask: Ask,
}

/// Accepts or refuses the offers of a walk.
pub trait Offerer {
    /// The offer may be made in this state.
    ghost can_offer: { Self → ℕ → Half → Type 0 };

    /// The results that an offer may have, and the state after each.
    ghost gives: { Self → ℕ → Half → Bool → Self → Type 0 };

    /// Returns true if `half` of `edge` is accepted.
    fn offer(&mut self, edge: usize, half: Half) -> bool
        requires { can_offer self.old edge half }
        ensures { gives self.old edge half result self.new };
}

/// The edges of a graph as one direction follows them. Each call of `take` or `release` is one read.
pub trait EdgeSource {
    /// The number of nodes, and the ways by edge number. No call changes it.
    ghost content: { Self → Content };

    /// The number of reads so far.
    ghost reads: { Self → ℕ };

    /// Returns the number of edges.
    fn edge_count(&self) -> usize
        ensures count { result ≡ length (content self.now).ways }
        ensures nodes { EndsAreNodes (content self.now) };

    /// Returns the edge at `place`, from 0, among those that start at `start`, by ascending number. `None` is
    /// returned past the last.
    fn take(&mut self, start: usize, place: usize) -> Option<Taken>
        requires node { start < (content self.old).nodes }
        requires few { reads self.old < 2 ^ 100 }
        ensures same { content self.new ≡ content self.old }
        ensures read { reads self.new ≡ reads self.old + 1 }
        ensures taken { result ≡ told (content self.old) (slice_get (starting (content self.old) start) place) };

    /// Returns the edge at `place`, from 0, among those whose gate is `gate`, by ascending number. `None` is
    /// returned past the last.
    fn release(&mut self, gate: usize, place: usize) -> Option<Taken>
        requires node { gate < (content self.old).nodes }
        requires few { reads self.old < 2 ^ 100 }
        ensures same { content self.new ≡ content self.old }
        ensures read { reads self.new ≡ reads self.old + 1 }
        ensures taken { result ≡ told (content self.old) (slice_get (releasing (content self.old) gate) place) };
}

/// The result of a walk.
#[derive(Drop)]
pub struct Walk {
    /// The nodes that were reached.
    pub members: IxBitSet,
}

/// The reason why a node is a member.
#[derive(Clone, Copy, Debug, PartialEq, Eq)]
pub enum StepReason {
    /// It is an initial node.
    Initial,
    /// The unconditional edge with this number leads to it from an earlier member.
    Edge(usize),
    /// The accepted offer of this edge and half leads to it from an earlier member.
    Offer(usize, Half),
}

/// A member, and the reason why it is one.
#[derive(Clone, Copy, Debug, PartialEq, Eq)]
pub struct Step {
    pub node: usize,
    pub reason: StepReason,
}

/// Walks from `initials`, and explains the members. The offers make a complete legal run.
///
/// Returns the walk, a step for each member in the order of reaching them, and the refused offers in the order
/// of the run. `AllocError` is returned when an allocation fails; the offers made until then are a legal run.
pub fn walk_explained<S: EdgeSource, O: Offerer>(
    alloc: Global,
    source: &mut S,
    initials: &IxBitSet,
    offerer: &mut O,
) -> Result<(Walk, Vec<Step>, Vec<(usize, Half)>), AllocError>
    requires size { length initials.now ≡ (S.content source.old).nodes }
    requires few { S.reads source.old < 2 ^ 99 }
    requires may { MayAsk O.can_offer O.gives (S.content source.old) offerer.old }
    ensures content { S.content source.new ≡ S.content source.old }
    ensures size { IfOk result (λ r. length r.0.members ≡ (S.content source.old).nodes) }
    ensures walk { IfOk result (λ r. IsExplainedWalk (S.content source.old) (has initials.now) O.gives
        offerer.old offerer.new (has r.0.members) r.1.items r.2.items) }
    ensures reads { IfOk result (λ r. ReadsAreBounded (S.content source.old) r.0.members
        (S.reads source.old) (S.reads source.new)) }
    ensures err { OnErr result (LegalRun (S.content source.old) (has initials.now) O.gives offerer.old offerer.new) }
{
    let found = walk_found(alloc, source, initials, offerer, true)?;
    let walk = Walk {
        members: found.members,
    };
    Ok((walk, found.steps, found.refused))
}

/// Walks from `initials`. The offers make a complete legal run, and the members are exactly the nodes that its
/// accepted offers reach.
///
/// `AllocError` is returned when an allocation fails; the offers made until then are a legal run.
pub fn walk_over<S: EdgeSource, O: Offerer>(
    alloc: Global,
    source: &mut S,
    initials: &IxBitSet,
    offerer: &mut O,
) -> Result<Walk, AllocError>
    requires size { length initials.now ≡ (S.content source.old).nodes }
    requires few { S.reads source.old < 2 ^ 99 }
    requires may { MayAsk O.can_offer O.gives (S.content source.old) offerer.old }
    ensures content { S.content source.new ≡ S.content source.old }
    ensures size { IfOk result (λ walk. length walk.members ≡ (S.content source.old).nodes) }
    ensures walk { IfOk result (λ walk. IsWalk (S.content source.old) (has initials.now) O.gives
        offerer.old offerer.new (has walk.members)) }
    ensures reads { IfOk result (λ walk. ReadsAreBounded (S.content source.old) walk.members
        (S.reads source.old) (S.reads source.new)) }
    ensures err { OnErr result (LegalRun (S.content source.old) (has initials.now) O.gives offerer.old offerer.new) }
{
    let found = walk_found(alloc, source, initials, offerer, false)?;
    Ok(Walk {
        members: found.members,
    })
}
