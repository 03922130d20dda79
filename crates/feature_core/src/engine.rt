//! Walks over the edges of a source. A walk asks an offerer before it follows a conditional edge.

ghost use Rattle.std.specs.Prelude.{◌≡◌, ◌^◌, ◌<◌, IfOk, IfErr, OnErr, length};
ghost use Rattle.digraphs.specs.Bits.{has};
ghost use Rattle.walk_engine.specs.Walks.{IsWalk, LegalRun, MayAsk, ReadsAreBounded};
ghost use Rattle.walk_engine.specs.Explanations.{IsExplainedWalk};

use crate::error::Error;
use digraphs::IxBitSet;
use std::alloc::Global;
pub use walk_engine::{Ask, EdgeSource, Half, Offerer, Step, StepReason, Taken, Walk};

/// Walks from `initials` and explains the members.
///
/// Returns the walk, a step for each member in the order of reaching, and the refused offers in the order of the run. The offers
/// make a complete legal run. `Memory` is the only error; the offers made by then are a legal run.
pub fn walk_explained<S: EdgeSource, O: Offerer>(
    alloc: Global,
    source: &mut S,
    initials: &IxBitSet,
    offerer: &mut O,
) -> Result<(Walk, Vec<Step>, Vec<(usize, Half)>), Error<'static>>
    requires size { length initials.now ≡ (S.content source.old).nodes }
    requires few { S.reads source.old < 2 ^ 99 }
    requires may { MayAsk O.can_offer O.gives (S.content source.old) offerer.old }
    ensures content { S.content source.new ≡ S.content source.old }
    ensures size { IfOk result (λ r. length r.0.members ≡ (S.content source.old).nodes) }
    ensures walk { IfOk result (λ r. IsExplainedWalk (S.content source.old) (has initials.now) O.gives
        offerer.old offerer.new (has r.0.members) r.1.items r.2.items) }
    ensures reads { IfOk result (λ r. ReadsAreBounded (S.content source.old) r.0.members
        (S.reads source.old) (S.reads source.new)) }
    ensures err { OnErr result (LegalRun (S.content source.old) (has initials.now) O.gives offerer.old offerer.new) }
    ensures refused { IfErr result (λ e. e ≡ Error.Memory) }
{
    let explained = walk_engine::walk_explained(alloc, source, initials, offerer)?;
    Ok(explained)
}

/// Walks from `initials`.
///
/// The offers make a complete legal run, and the members are exactly the nodes that its accepted offers reach. `Memory` is the
/// only error; the offers made by then are a legal run.
pub fn walk_over<S: EdgeSource, O: Offerer>(
    alloc: Global,
    source: &mut S,
    initials: &IxBitSet,
    offerer: &mut O,
) -> Result<Walk, Error<'static>>
    requires size { length initials.now ≡ (S.content source.old).nodes }
    requires few { S.reads source.old < 2 ^ 99 }
    requires may { MayAsk O.can_offer O.gives (S.content source.old) offerer.old }
    ensures content { S.content source.new ≡ S.content source.old }
    ensures size { IfOk result (λ walk. length walk.members ≡ (S.content source.old).nodes) }
    ensures walk { IfOk result (λ walk. IsWalk (S.content source.old) (has initials.now) O.gives
        offerer.old offerer.new (has walk.members)) }
    ensures reads { IfOk result (λ walk. ReadsAreBounded (S.content source.old) walk.members
        (S.reads source.old) (S.reads source.new)) }
    ensures err { OnErr result (LegalRun (S.content source.old) (has initials.now) O.gives offerer.old offerer.new) }
    ensures refused { IfErr result (λ e. e ≡ Error.Memory) }
{
    let walk = walk_engine::walk_over(alloc, source, initials, offerer)?;
    Ok(walk)
}
