//! The spec texts of a package graph that hold for a target.
ghost use Rattle.std.specs.Prelude.{◌≡◌, ◌++◌, ◌∷◌, [], List, map, OnOk, IfOk, IfErr};
ghost use Rattle.guppy_packages.specs.Rows.{Text};
ghost use Rattle.platform_specs.specs.Expressions.{Spec};
ghost use Rattle.platform_specs.specs.Grammar.{IsSpecText};
ghost use Rattle.platform_specs.specs.Truth.{truth_of};
ghost use Rattle.guppy_features.specs.graph_platforms.DeclaredSpecs.{spec_texts};
ghost use Rattle.guppy_features.specs.graph_platforms.HeldSpecs.{AreHeld};
ghost use Rattle.guppy_features.specs.graph_platforms.SpecFaults.{IsFaultAt, IsFaultOf};

use crate::graph_platforms::fault::PlatformFault;
use crate::graph_platforms::spec_texts::declared_specs;
use guppy_packages::PackageGraph;
use platform_specs::{PlatformSpec, SpecFault, TargetCfg};
use std::alloc::Global;

/// Returns true if the spec that `text` spells holds for `target`.
fn holds<'g>(alloc: Global, text: &'g str, target: &TargetCfg) -> Result<bool, PlatformFault<'g>>
    ensures holds { IfOk result (λ answer. (spec : Spec) × IsSpecText text.now spec × (answer ≡ truth_of target.now spec)) }
    ensures fault { IfErr result (λ fault. IsFaultAt text.now fault) }
{
    match PlatformSpec::parse(alloc, text) {
        Ok(spec) => Ok(spec.holds(target)),
        Err(SpecFault::Malformed { at }) => Err(PlatformFault::Malformed { spec: text, at }),
        Err(SpecFault::Memory) => Err(PlatformFault::Memory),
    }
}

/// Appends `text` if it holds for `target`.
fn push_held<'g>(
    alloc: Global,
    held: &mut Vec<&'g str>,
    text: &'g str,
    target: &TargetCfg,
) -> Result<(), PlatformFault<'g>>
    ensures held { OnOk result ((before : List Text) → AreHeld target.now before (map (λ t. t.now) held.old.items)
        → AreHeld target.now (before ++ text.now ∷ []) (map (λ t. t.now) held.new.items)) }
    ensures fault { IfErr result (λ fault. IsFaultAt text.now fault) }
{
    if holds(alloc, text, target)? {
        held.push(text)?;
    }
    Ok(())
}

/// Returns those of `texts` that hold for `target`, in order; the first text that is no spec is the fault.
fn held_among<'g>(
    alloc: Global,
    texts: &[&'g str],
    target: &TargetCfg,
) -> Result<Vec<&'g str>, PlatformFault<'g>>
    ensures held { IfOk result (λ held. AreHeld target.now (map (λ t. t.now) texts.now) (map (λ t. t.now) held.items)) }
    ensures fault { IfErr result (λ fault. IsFaultOf (map (λ t. t.now) texts.now) fault) }
{
    let mut held = Vec::new(alloc);
    for &text in texts {
        if let Err(fault) = push_held(alloc, &mut held, text, target) {
            return Err(fault);
        }
    }
    Ok(held)
}

/// Returns the spec texts of `graph` that hold for `target`: each once, by first appearance among the declarations of its links.
/// `PlatformVisitor::new` takes them. `Malformed` names the first text that is no spec; `Memory` if an allocation fails.
pub fn held_specs<'g>(
    alloc: Global,
    graph: &'g PackageGraph,
    target: &TargetCfg,
) -> Result<Vec<&'g str>, PlatformFault<'g>>
    ensures held { IfOk result (λ held. AreHeld target.now (spec_texts graph.now) (map (λ t. t.now) held.items)) }
    ensures fault { IfErr result (λ fault. IsFaultOf (spec_texts graph.now) fault) }
{
    let texts = declared_specs(alloc, graph)?;
    held_among(alloc, texts.as_slice(), target)
}
