//! The declarations of a link.
ghost use Rattle.std.specs.Prelude.{◌≡◌, ◌++◌, ◌∷◌, [], IfOk, OnOk};
ghost use Rattle.guppy_packages.specs.inner.Declarations.{held_declarations};

use crate::declaration::Declaration;
use crate::pushing::push_to;
use std::alloc::{AllocError, Global};
use std::{mem, slice};

/// The declarations of a link, in row order. Most links have one, which needs no allocation.
#[derive(Drop)]
pub(crate) enum Declarations {
    One(Declaration),
    More(Vec<Declaration>),
}

/// Returns `before` with `declaration` at the end. `AllocError` is the only error.
fn appended(
    alloc: Global,
    before: Declarations,
    declaration: Declaration,
) -> Result<Declarations, AllocError>
    ensures { IfOk result (λ all. held_declarations all ≡ held_declarations before ++ declaration ∷ []) }
{
    let mut all = match before {
        Declarations::One(first) => {
            let mut both = Vec::with_capacity(alloc, 2)?;
            push_to(&mut both, first)?;
            both
        }
        Declarations::More(all) => all,
    };
    push_to(&mut all, declaration)?;
    Ok(Declarations::More(all))
}

impl Declarations {
    /// Returns the declarations.
    pub(crate) fn as_slice(&self) -> &[Declaration]
        ensures { result.now ≡ held_declarations self.now }
    {
        match self {
            Declarations::One(declaration) => slice::from_ref(declaration),
            Declarations::More(all) => all.as_slice(),
        }
    }

    /// Appends `declaration`. `AllocError` is the only error, and then declarations may be lost.
    pub(crate) fn push(&mut self, alloc: Global, declaration: Declaration) -> Result<(), AllocError>
        ensures { OnOk result (held_declarations self.new ≡ held_declarations self.old ++ declaration ∷ []) }
    {
        let before = mem::replace(self, Declarations::More(Vec::new(alloc)));
        *self = appended(alloc, before, declaration)?;
        Ok(())
    }
}
