//! The declarations of a member that gets lines.
ghost use Rattle.std.specs.Prelude.{◌≡◌, ◌++◌, ◌∷◌, [], IfOk, OnOk, map, if◌then◌else◌};
ghost use Rattle.cargo_workspaces.specs.Views.{declaration_text};
ghost use Rattle.feats_duplicates.specs.Joined as spec;
ghost use Rattle.feats_duplicates.specs.inner.JoinViews.{join_text};

use crate::joins::Join;
use cargo_manifests::copies_of_declarations;
use cargo_workspaces::Declaration;
use std::alloc::{AllocError, Global};

/// Returns the name by which the first of `declarations` that leads to package `package` calls it; without one, `name`.
fn name_among<'v>(package: usize, name: &'v str, declarations: &[Declaration<'v>]) -> &'v str
    ensures { result.now ≡ spec.name_among «package» name.now (map declaration_text declarations.now) }
{
    for declaration in declarations {
        if declaration.leads_to_package(package) {
            return declaration.name;
        }
    }
    name
}

/// Returns the declaration of `join` in a manifest with these declarations.
fn declaration_of<'v>(
    alloc: Global,
    declarations: &[Declaration<'v>],
    join: &Join<'v>,
) -> Result<Declaration<'v>, AllocError>
    ensures { IfOk result (λ new. declaration_text new ≡ spec.declaration_of (map declaration_text declarations.now) (join_text join.now)) }
{
    let features = Vec::from_slice(alloc, &join.features)?;
    Ok(Declaration {
        name: name_among(join.package, join.name, declarations),
        kind: join.kind,
        optional: false,
        platform: None,
        default_features: false,
        features,
        leads_to: Some(join.package),
    })
}

/// Returns whether `join` is for member `member`.
fn is_for(join: &Join<'_>, member: usize) -> bool
    ensures { result ≡ spec.is_for member (join_text join.now) }
{
    join.members.contains(&member)
}

/// Appends the declaration of `join` in a manifest with these declarations, if it is for member `member`.
fn push_join<'v>(
    alloc: Global,
    new: &mut Vec<Declaration<'v>>,
    declarations: &[Declaration<'v>],
    member: usize,
    join: &Join<'v>,
) -> Result<(), AllocError>
    ensures { OnOk result (map declaration_text new.new.items ≡ map declaration_text new.old.items
        ++ (if spec.is_for member (join_text join.now) then spec.declaration_of (map declaration_text declarations.now) (join_text join.now) ∷ [] else [])) }
{
    if is_for(join, member) {
        new.push(declaration_of(alloc, declarations, join)?)?;
    }
    Ok(())
}

/// Returns `declarations`, which are those of member `member`, and then the declarations of those of `joins` that are for it.
pub(crate) fn joined_declarations<'v>(
    alloc: Global,
    joins: &[Join<'v>],
    member: usize,
    declarations: &[Declaration<'v>],
) -> Result<Vec<Declaration<'v>>, AllocError>
    ensures { IfOk result (λ new. map declaration_text new.items ≡ spec.joined_declarations (map join_text joins.now) member (map declaration_text declarations.now)) }
{
    let mut new = copies_of_declarations(alloc, declarations)?;
    for join in joins {
        push_join(alloc, &mut new, declarations, member, join)?;
    }
    Ok(new)
}
