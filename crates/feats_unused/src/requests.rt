//! The features that packages ask of other packages.
ghost use Rattle.std.specs.Prelude.{◌≡◌, ◌++◌, IfOk, List, OnOk, flat_map, map, codes, if◌then◌else◌, []};
ghost use Rattle.guppy_packages.specs.Items.{item_of};
ghost use Rattle.cargo_workspaces.specs.Views.{declaration_text, feature_text, package_text, texts};
ghost use Rattle.cargo_workspaces.specs.Workspaces.{DeclarationText};
ghost use Rattle.feats_unused.specs.Requests as spec;
ghost use Rattle.feats_unused.specs.Views.{request_text};
ghost use Rattle.feats_unused.specs.inner.Groups.{HasLeads};

use crate::groups::{leads_by_name, leads_of};
use cargo_workspaces::{Declaration, Feature, Package};
use guppy_packages::NamedFeatureDep;
use std::alloc::{AllocError, Global};
use std::collections::BTreeMap;

/// A feature that another package asks for.
#[derive(Clone, Copy)]
pub(crate) struct Request<'w> {
    /// The number of the package that is asked.
    pub(crate) to: usize,
    pub(crate) feature: &'w str,
}

/// Appends the request of package `from` for `feature` of package `to`, unless they are the same.
fn push_request<'w>(
    requests: &mut Vec<Request<'w>>,
    from: usize,
    to: usize,
    feature: &'w str,
) -> Result<(), AllocError>
    ensures { OnOk result (map request_text requests.new.items ≡ map request_text requests.old.items ++ spec.request from to feature.now) }
{
    if to != from {
        requests.push(Request { to, feature })?;
    }
    Ok(())
}

/// Appends the requests of package `from` for each of `features` of package `to`.
fn push_features<'w>(
    requests: &mut Vec<Request<'w>>,
    from: usize,
    to: usize,
    features: &[&'w str],
) -> Result<(), AllocError>
    ensures { OnOk result (map request_text requests.new.items ≡ map request_text requests.old.items ++ flat_map (spec.request from to) (texts features.now)) }
{
    for feature in features {
        push_request(requests, from, to, feature)?;
    }
    Ok(())
}

/// Appends the request of package `from` for the default features of package `to`, if `flag`.
fn push_default(
    requests: &mut Vec<Request<'_>>,
    from: usize,
    to: usize,
    flag: bool,
) -> Result<(), AllocError>
    ensures { OnOk result (map request_text requests.new.items ≡ map request_text requests.old.items ++ (if flag then spec.request from to (codes "default") else [])) }
{
    if flag {
        push_request(requests, from, to, "default")?;
    }
    Ok(())
}

/// Appends the requests of `declaration` of package `from`, which leads to package `to`.
fn push_lead<'w>(
    requests: &mut Vec<Request<'w>>,
    from: usize,
    declaration: &Declaration<'w>,
    to: usize,
) -> Result<(), AllocError>
    ensures { OnOk result (map request_text requests.new.items ≡ map request_text requests.old.items ++ spec.by_lead from (declaration_text declaration.now) to) }
{
    push_features(requests, from, to, &declaration.features)?;
    push_default(requests, from, to, declaration.default_features)
}

/// Appends the requests of `declaration` of package `from`.
fn push_declaration<'w>(
    requests: &mut Vec<Request<'w>>,
    from: usize,
    declaration: &Declaration<'w>,
) -> Result<(), AllocError>
    ensures { OnOk result (map request_text requests.new.items ≡ map request_text requests.old.items ++ spec.by_declaration from (declaration_text declaration.now)) }
{
    match declaration.leads_to {
        Some(to) => push_lead(requests, from, declaration, to),
        None => Ok(()),
    }
}

/// Appends the requests of each of `declarations` of package `from`.
fn push_declarations<'w>(
    requests: &mut Vec<Request<'w>>,
    from: usize,
    declarations: &[Declaration<'w>],
) -> Result<(), AllocError>
    ensures { OnOk result (map request_text requests.new.items ≡ map request_text requests.old.items ++ flat_map (spec.by_declaration from) (map declaration_text declarations.now)) }
{
    for declaration in declarations {
        push_declaration(requests, from, declaration)?;
    }
    Ok(())
}

/// Appends the requests of package `from` for `feature` of each of the packages `leads`.
fn push_to_each<'w>(
    requests: &mut Vec<Request<'w>>,
    from: usize,
    leads: &[usize],
    feature: &'w str,
) -> Result<(), AllocError>
    ensures { OnOk result (map request_text requests.new.items ≡ map request_text requests.old.items ++ flat_map (λ q. spec.request from q feature.now) leads.now) }
{
    for to in leads {
        push_request(requests, from, *to, feature)?;
    }
    Ok(())
}

/// Appends the requests of `item` of package `from`. `leads` are the packages to which its declarations lead, by their names.
fn push_item<'w>(
    requests: &mut Vec<Request<'w>>,
    from: usize,
    leads: &BTreeMap<&str, Vec<usize>>,
    item: &'w str,
) -> Result<(), AllocError>
    ensures { OnOk result ((ds : List DeclarationText) → HasLeads leads.now ds → map request_text requests.new.items ≡ map request_text requests.old.items ++ spec.by_item from ds (item_of item.now)) }
{
    match NamedFeatureDep::from_cargo_string(item) {
        NamedFeatureDep::DependencyNamedFeature {
            dep_name,
            feature,
            ..
        } => push_to_each(requests, from, leads_of(leads, dep_name), feature),
        NamedFeatureDep::NamedFeature(_) | NamedFeatureDep::OptionalDependency(_) => Ok(()),
    }
}

/// Appends the requests of each of `items` of package `from`.
fn push_items<'w>(
    requests: &mut Vec<Request<'w>>,
    from: usize,
    leads: &BTreeMap<&str, Vec<usize>>,
    items: &[&'w str],
) -> Result<(), AllocError>
    ensures { OnOk result ((ds : List DeclarationText) → HasLeads leads.now ds → map request_text requests.new.items ≡ map request_text requests.old.items ++ flat_map (λ t. spec.by_item from ds (item_of t)) (texts items.now)) }
{
    for item in items {
        push_item(requests, from, leads, item)?;
    }
    Ok(())
}

/// Appends the requests of each of `features` of package `from`.
fn push_each_feature<'w>(
    requests: &mut Vec<Request<'w>>,
    from: usize,
    leads: &BTreeMap<&str, Vec<usize>>,
    features: &[Feature<'w>],
) -> Result<(), AllocError>
    ensures { OnOk result ((ds : List DeclarationText) → HasLeads leads.now ds → map request_text requests.new.items ≡ map request_text requests.old.items ++ flat_map (spec.by_feature from ds) (map feature_text features.now)) }
{
    for feature in features {
        push_items(requests, from, leads, &feature.items)?;
    }
    Ok(())
}

/// Appends the requests of `package`, which is package `from`.
fn push_package<'w>(
    alloc: Global,
    requests: &mut Vec<Request<'w>>,
    from: usize,
    package: &Package<'w>,
) -> Result<(), AllocError>
    ensures { OnOk result (map request_text requests.new.items ≡ map request_text requests.old.items ++ spec.requests_of from (package_text «package».now)) }
{
    let leads = leads_by_name(alloc, &package.declarations)?;
    push_declarations(requests, from, &package.declarations)?;
    push_each_feature(requests, from, &leads, &package.features)
}

/// Returns what `packages`, which are numbered from 0, ask of others. Its only error is out of memory.
pub(crate) fn requests_of<'w>(
    alloc: Global,
    packages: &[Package<'w>],
) -> Result<Vec<Request<'w>>, AllocError>
    ensures { IfOk result (λ requests. map request_text requests.items ≡ spec.requests_from 0 (map package_text packages.now)) }
{
    let mut requests = Vec::new(alloc);
    for (ix, package) in packages.iter().enumerate() {
        push_package(alloc, &mut requests, ix, package)?;
    }
    Ok(requests)
}
