//! The platform specs that hold on a platform.
ghost use Rattle.std.specs.Borrow.{Bor};
ghost use Rattle.std.specs.Prelude.{◌≡◌, ℕ, ◌++◌, ◌∷◌, [], List, map, OnOk, IfOk, IfErr};
ghost use Rattle.platform_specs.specs.Faults.{IsSpecFault};
ghost use Rattle.plan_rows.specs.platforms.DeclaredSpecs.{DeclaredText};
ghost use Rattle.plan_rows.specs.platforms.HeldSpecs.{AreHeld, IsTruth, holds_on, is_declared};
ghost use Rattle.plan_rows.specs.platforms.SpecFaults.{IsFaultAt, IsFaultOf};
ghost use Rattle.plan_rows.specs.platforms.Views.{declared_text};
ghost use Rattle.plan_rows.specs.platforms.inner.Holding.{IsHolding, kept};

use crate::Platform;
use crate::platforms::declarations::DeclaredSpec;
use crate::platforms::fault::PlatformFault;
use platform_specs::{PlatformSpec, SpecFault, TargetCfg, one_spec};
use std::alloc::{AllocError, Global};
use std::collections::BTreeSet;

/// The platform specs of a workspace that hold on a platform.
#[derive(Drop)]
pub struct HeldSpecs<'w> {
    texts: BTreeSet<&'w str>,
}

impl Platform for HeldSpecs<'_> {
    ghost holds = { holds_on };

    /// Returns whether `spec` is one of those that hold.
    fn holds(&self, spec: &str) -> bool {
        self.texts.contains(spec)
    }
}

/// Returns the fault of `declared`, whose text has the fault `fault`.
fn fault_of(declared: DeclaredSpec<'_>, fault: SpecFault) -> PlatformFault<'_>
    requires { IsSpecFault declared.text.now fault }
    ensures { IsFaultAt (declared_text declared.entry) result }
{
    match fault {
        SpecFault::Malformed { at } => PlatformFault::Malformed {
            package: declared.package,
            spec: declared.text,
            at,
        },
        SpecFault::Memory => PlatformFault::Memory,
    }
}

/// Returns whether the spec that `declared` spells holds for `target`.
fn truth<'w>(
    alloc: Global,
    declared: DeclaredSpec<'w>,
    target: &TargetCfg,
) -> Result<bool, PlatformFault<'w>>
    ensures holds { IfOk result (IsTruth target.now declared.entry.text.now) }
    ensures fault { IfErr result (IsFaultAt (declared_text declared.entry)) }
{
    match PlatformSpec::parse(alloc, declared.text) {
        Ok(spec) => Ok(spec.holds(target)),
        Err(fault) => Err(fault_of(declared, fault)),
    }
}

/// Adds `text` to `held`, if `is_held`.
fn keep<'w>(held: &mut HeldSpecs<'w>, text: &'w str, is_held: bool) -> Result<(), AllocError>
    ensures { OnOk result ((q : Bor (List ℕ)) → holds_on held.new q.now ≡ kept is_held text.entry.now (holds_on held.old) q.now) }
{
    if is_held {
        let _is_new = held.texts.insert(text)?;
    }
    Ok(())
}

/// Adds the text of `declared` to `held`, if it holds for `target`.
fn note<'w>(
    alloc: Global,
    held: &mut HeldSpecs<'w>,
    declared: DeclaredSpec<'w>,
    target: &TargetCfg,
) -> Result<(), PlatformFault<'w>>
    ensures held { OnOk result ((before : List DeclaredText) → IsHolding target.now before (holds_on held.old) → IsHolding target.now (before ++ declared_text declared.entry ∷ []) (holds_on held.new)) }
    ensures fault { IfErr result (IsFaultAt (declared_text declared.entry)) }
{
    one_spec();
    let is_held = truth(alloc, declared, target)?;
    keep(held, declared.text, is_held)?;
    Ok(())
}

/// Returns the specs of `specs` that hold for `target`: a spec holds on the platform exactly if it holds for the target. `Malformed`
/// is the first text that is no spec; `Memory` if an allocation fails.
pub fn held_specs<'w>(
    alloc: Global,
    specs: &[DeclaredSpec<'w>],
    target: &TargetCfg,
) -> Result<HeldSpecs<'w>, PlatformFault<'w>>
    ensures held { IfOk result (λ held. AreHeld target.now (map declared_text specs.now) (holds_on held)) }
    ensures fault { IfErr result (IsFaultOf (map declared_text specs.now)) }
{
    let mut held = HeldSpecs {
        texts: BTreeSet::new(alloc),
    };
    for declared in specs {
        if let Err(fault) = note(alloc, &mut held, *declared, target) {
            return Err(fault);
        }
    }
    Ok(held)
}

/// Returns a platform on which exactly the specs of `specs` hold. An allocation's failure is the only error.
pub fn every_spec<'w>(
    alloc: Global,
    specs: &[DeclaredSpec<'w>],
) -> Result<HeldSpecs<'w>, AllocError>
    ensures { IfOk result (λ held. (text : List ℕ) → holds_on held text ≡ is_declared (map declared_text specs.now) text) }
{
    let mut held = HeldSpecs {
        texts: BTreeSet::new(alloc),
    };
    for declared in specs {
        keep(&mut held, declared.text, true)?;
    }
    Ok(held)
}
