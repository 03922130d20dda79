//! The places of used packages, by the names of the packages.
ghost use Rattle.std.specs.Prelude.{◌≡◌, ◌++◌, ◌∷◌, [], IfOk, OnOk, if◌then◌else◌, map};
ghost use Rattle.std.specs.Str.{bytes_eq};
ghost use Rattle.cargo_json.specs.Faults.{Text};
ghost use Rattle.workspace_documents.specs.Names.{HasNames, places_of};
ghost use Rattle.workspace_documents.specs.Views.{dep_view};

use crate::nodes::Dep;
use std::alloc::{AllocError, Global};
use std::collections::BTreeMap;

/// The places of used packages in their list, by the names of the packages.
pub type Names<'v> = BTreeMap<&'v str, Vec<usize>>;

/// Appends `place` to the places of `name`. The only error is out of memory.
fn add_name<'v>(names: &mut Names<'v>, name: &'v str, place: usize) -> Result<(), AllocError>
    ensures { OnOk result ((q : Text) → places_of names.new q ≡ places_of names.old q ++ (if bytes_eq q name.now then place ∷ [] else [])) }
{
    names.entry(name)?.or_default().push(place)?;
    Ok(())
}

/// Returns the places of `deps`, by the names of their packages. The only error is out of memory.
pub fn names_of<'v>(alloc: Global, deps: &[Dep<'_, 'v>]) -> Result<Names<'v>, AllocError>
    ensures { IfOk result (λ names. HasNames names (map dep_view deps.now)) }
{
    let mut names = BTreeMap::new(alloc);
    for (place, dep) in deps.iter().enumerate() {
        add_name(&mut names, dep.target.name, place)?;
    }
    Ok(names)
}
