//! Numbers in groups, by the name of a package.
ghost use Rattle.std.specs.Prelude.{◌≡◌, ◌++◌, ◌∷◌, [], OnOk, ◌&&◌, if◌then◌else◌};
ghost use Rattle.std.specs.Str.{bytes_eq};
ghost use Rattle.cargo_workspaces.specs.Workspaces.{Text};
ghost use Rattle.feats_duplicates.specs.inner.Groups.{named};

use std::alloc::AllocError;
use std::collections::BTreeMap;

/// Appends `number` to the group of `name`.
fn add_name<'w>(
    names: &mut BTreeMap<&'w str, Vec<usize>>,
    name: &'w str,
    number: usize,
) -> Result<(), AllocError>
    ensures { OnOk result ((q : Text) → named names.new q ≡ named names.old q ++ (if bytes_eq q name.now then number ∷ [] else [])) }
{
    names.entry(name)?.or_default().push(number)?;
    Ok(())
}

/// Appends `number` to the group of `name`, if `flag`.
pub(crate) fn add_if<'w>(
    names: &mut BTreeMap<&'w str, Vec<usize>>,
    flag: bool,
    name: &'w str,
    number: usize,
) -> Result<(), AllocError>
    ensures { OnOk result ((q : Text) → named names.new q ≡ named names.old q ++ (if flag && bytes_eq q name.now then number ∷ [] else [])) }
{
    if flag {
        add_name(names, name, number)?;
    }
    Ok(())
}
