//! Calls on package graphs and platform statuses.
use crate::shared::{Failure, Out, all_of, cut};
use guppy_packages::{
    Declaration, NamedFeature, PackageGraph, PackageId, PackageLink, PackageMetadata,
    PlatformStatus, PlatformStatusImpl,
};
use std::alloc::Global;

/// Writes a named feature of `package`, its place and its items.
fn tell_feature(out: &Out, package: PackageMetadata<'_>, feature: &NamedFeature) {
    out.text("feature ", feature.name());
    out.place(" at ", package.feature_place(feature.name()));
    out.part(":");
    for ix in 0..feature.item_count() {
        out.text(" ", feature.item(ix));
    }
    out.line("");
}

/// Writes the number and id of `package`, whether it is in the workspace and has a default feature, and its links.
fn tell_facts(out: &Out, package: PackageMetadata<'_>) {
    out.number("package ", package.package_ix());
    out.text(" ", package.id().repr());
    out.part(if package.in_workspace() {
        " workspace"
    } else {
        " external"
    });
    out.part_if(package.has_default_feature(), ", has a default");
    let links = package.direct_links();
    out.number(", links ", links.start);
    out.number("..", links.end);
    out.line("");
}

/// Writes `package`, its named features and its optional dependencies.
fn tell_package(out: &Out, package: PackageMetadata<'_>) {
    tell_facts(out, package);
    for feature in package.named_features() {
        tell_feature(out, package, feature);
    }
    for name in package.optional_deps() {
        out.text("optional ", name.as_str());
        out.place(" at ", package.optional_place(name.as_str()));
        out.line("");
    }
}

/// Writes `status` and the results of `is_never`, `is_always` and `is_present`.
fn tell_status(out: &Out, status: PlatformStatus<'_>) {
    match status {
        PlatformStatus::Never => out.part("nowhere"),
        PlatformStatus::Always => out.part("everywhere"),
        PlatformStatus::PlatformDependent(specs) => {
            out.part("on");
            for spec in specs {
                out.text(" ", spec.text());
            }
        }
    }
    out.part_if(status.is_never(), ", never");
    out.part_if(status.is_always(), ", always");
    out.part_if(status.is_present(), ", present");
}

/// Writes a declaration of a link on a line.
fn tell_declaration(out: &Out, declaration: &Declaration) {
    out.debug(declaration.kind());
    out.part(if declaration.optional() {
        ", optional, "
    } else {
        ", required, "
    });
    tell_status(out, PlatformStatus::new(declaration.platform()));
    out.part_if(declaration.default_features(), ", with defaults");
    for ix in 0..declaration.feature_count() {
        out.text(", ", declaration.feature(ix));
    }
    out.line("");
}

/// Writes `link` and its declarations.
fn tell_link(out: &Out, link: PackageLink<'_>) {
    let (from, to) = (link.from(), link.to());
    out.number("link ", link.link_ix());
    out.number(" ", from.package_ix());
    out.number("-", to.package_ix());
    out.text(" ", link.dep_name());
    out.part_if(from == to, ", to itself");
    out.part_if(link.dev_only(), ", for development alone");
    out.line("");
    for declaration in link.declarations() {
        tell_declaration(out, declaration);
    }
}

/// Writes a line for each package, feature, optional dependency, link and declaration of `graph`. Returns no error.
pub fn graph(out: &Out, graph: &PackageGraph) -> Result<(), Failure> {
    for ix in 0..graph.package_count() {
        tell_package(out, graph.package(ix));
    }
    for ix in 0..graph.link_count() {
        tell_link(out, graph.link(ix));
    }
    Ok(())
}

/// Looks up a package by id, and a name in it, and writes their places. Writes the error if `graph` lacks the package.
/// Returns `Memory` if an allocation fails.
pub fn place(out: &Out, alloc: Global, graph: &PackageGraph, words: &str) -> Result<(), Failure> {
    let (id, name) = cut(words);
    let id = PackageId::new(alloc, id)?;
    match graph.metadata(&id) {
        Ok(package) => {
            out.shown(package.id());
            out.number(" is package ", package.package_ix());
            out.place(", ", package.feature_place(name));
            out.place(" among its features, ", package.optional_place(name));
            out.line(" among its optional names");
        }
        Err(error) => out.debug_line(error),
    }
    Ok(())
}

/// Writes an owned status and its copy; `Memory` is the only error.
fn tell_owned(out: &Out, alloc: Global, status: &PlatformStatusImpl) -> Result<(), Failure> {
    tell_status(out, PlatformStatus::new(status));
    out.line("");
    let copy = status.try_clone(alloc)?;
    out.part("copy ");
    tell_status(out, PlatformStatus::new(&copy));
    out.line("");
    Ok(())
}

/// Writes the status `Always` and its copy; `Memory` is the only error.
pub fn always(out: &Out, alloc: Global) -> Result<(), Failure> {
    tell_owned(out, alloc, &PlatformStatusImpl::Always)
}

/// Writes the status of the specs in `words`, and its copy; `Memory` is the only error.
pub fn specs(out: &Out, alloc: Global, words: &str) -> Result<(), Failure> {
    tell_owned(
        out,
        alloc,
        &PlatformStatusImpl::Specs(all_of(alloc, words)?),
    )
}
