//! The names of optional dependencies.
ghost use Rattle.std.specs.Prelude.{◌≡◌, ◌++◌, ◌∷◌, [], List, IfOk, OnOk, map};
ghost use Rattle.cargo_workspaces.specs.Workspaces.{Text};
ghost use Rattle.cargo_workspaces.specs.Views.{declaration_text, texts};
ghost use Rattle.feats_list.specs.features.Lists as spec;
ghost use Rattle.feats_list.specs.features.inner.Names.{AreOnce};

use cargo_workspaces::Declaration;
use std::alloc::{AllocError, Global};
use std::collections::BTreeSet;

/// Appends `name` to `names`, unless `seen` has it.
fn note<'v>(
    seen: &mut BTreeSet<&'v str>,
    names: &mut Vec<&'v str>,
    name: &'v str,
) -> Result<(), AllocError>
    ensures { OnOk result ((all : List Text) → AreOnce all seen.old names.old.items → AreOnce (all ++ name.entry.now ∷ []) seen.new names.new.items) }
{
    if seen.insert(name)? {
        names.push(name)?;
    }
    Ok(())
}

/// Returns the names of the optional ones of `declarations`, once each and in their order.
pub(crate) fn optional_names<'v>(
    alloc: Global,
    declarations: &[Declaration<'v>],
) -> Result<Vec<&'v str>, AllocError>
    ensures { IfOk result (λ names. texts names.items ≡ spec.optional_names (map declaration_text declarations.now)) }
{
    let mut seen = BTreeSet::new(alloc);
    let mut names = Vec::new(alloc);
    for declaration in declarations {
        if declaration.optional {
            note(&mut seen, &mut names, declaration.name)?;
        }
    }
    Ok(names)
}
