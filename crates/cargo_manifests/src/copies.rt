//! Copies of the parts of a workspace.
ghost use Rattle.std.specs.Prelude.{◌≡◌, ◌++◌, IfOk, map};
ghost use Rattle.cargo_workspaces.specs.Views.{declaration_text, feature_text, package_text, target_text, texts};
ghost use Rattle.cargo_manifests.specs.Edits.{with_declarations, with_features};

use cargo_workspaces::{Declaration, Feature, Package, Target};
use std::alloc::{AllocError, Global};

/// Returns a copy of `feature`.
fn copy_of_feature<'v>(alloc: Global, feature: &Feature<'v>) -> Result<Feature<'v>, AllocError>
    ensures { IfOk result (λ copy. feature_text copy ≡ feature_text feature.now) }
{
    Ok(Feature {
        name: feature.name,
        items: Vec::from_slice(alloc, &feature.items)?,
    })
}

/// Returns copies of `features`.
fn copies_of_features<'v>(
    alloc: Global,
    features: &[Feature<'v>],
) -> Result<Vec<Feature<'v>>, AllocError>
    ensures { IfOk result (λ copies. map feature_text copies.items ≡ map feature_text features.now) }
{
    let mut copies = Vec::with_capacity(alloc, features.len())?;
    for feature in features {
        copies.push(copy_of_feature(alloc, feature)?)?;
    }
    Ok(copies)
}

/// Returns a copy of `target`.
fn copy_of_target<'v>(alloc: Global, target: &Target<'v>) -> Result<Target<'v>, AllocError>
    ensures { IfOk result (λ copy. target_text copy ≡ target_text target.now) }
{
    let kinds = Vec::from_slice(alloc, &target.kinds)?;
    let crate_types = Vec::from_slice(alloc, &target.crate_types)?;
    let required_features = Vec::from_slice(alloc, &target.required_features)?;
    Ok(Target {
        name: target.name,
        kinds,
        crate_types,
        test: target.test,
        doctest: target.doctest,
        required_features,
    })
}

/// Returns copies of `targets`.
fn copies_of_targets<'v>(
    alloc: Global,
    targets: &[Target<'v>],
) -> Result<Vec<Target<'v>>, AllocError>
    ensures { IfOk result (λ copies. map target_text copies.items ≡ map target_text targets.now) }
{
    let mut copies = Vec::with_capacity(alloc, targets.len())?;
    for target in targets {
        copies.push(copy_of_target(alloc, target)?)?;
    }
    Ok(copies)
}

/// Returns `declaration` with `features` as those that it lists, and with default features if `default_features`.
pub(crate) fn declaration_with<'v>(
    declaration: &Declaration<'v>,
    default_features: bool,
    features: Vec<&'v str>,
) -> Declaration<'v>
    ensures { declaration_text result ≡ with_features default_features (texts features.entry.items) (declaration_text declaration.now) }
{
    Declaration {
        name: declaration.name,
        kind: declaration.kind,
        optional: declaration.optional,
        platform: declaration.platform,
        default_features,
        features,
        leads_to: declaration.leads_to,
    }
}

/// Returns a copy of `declaration`.
pub(crate) fn copy_of_declaration<'v>(
    alloc: Global,
    declaration: &Declaration<'v>,
) -> Result<Declaration<'v>, AllocError>
    ensures { IfOk result (λ copy. declaration_text copy ≡ declaration_text declaration.now) }
{
    let features = Vec::from_slice(alloc, &declaration.features)?;
    Ok(declaration_with(declaration, declaration.default_features, features))
}

/// Returns copies of `declarations`. An allocation's failure is the only error.
pub fn copies_of_declarations<'v>(
    alloc: Global,
    declarations: &[Declaration<'v>],
) -> Result<Vec<Declaration<'v>>, AllocError>
    ensures { IfOk result (λ copies. map declaration_text copies.items ≡ map declaration_text declarations.now) }
{
    let mut copies = Vec::with_capacity(alloc, declarations.len())?;
    for declaration in declarations {
        copies.push(copy_of_declaration(alloc, declaration)?)?;
    }
    Ok(copies)
}

/// Returns a copy of `package` with `declarations` in place of its own. An allocation's failure is the only error.
pub fn package_with<'v>(
    alloc: Global,
    package: &Package<'v>,
    declarations: Vec<Declaration<'v>>,
) -> Result<Package<'v>, AllocError>
    ensures { IfOk result (λ copy. package_text copy ≡ with_declarations (map declaration_text declarations.entry.items) (package_text «package».now)) }
{
    let features = copies_of_features(alloc, &package.features)?;
    let targets = copies_of_targets(alloc, &package.targets)?;
    Ok(Package {
        id: package.id,
        name: package.name,
        version: package.version,
        source: package.source,
        features,
        declarations,
        targets,
    })
}
