//! Edges as text, and copies of edges.
use crate::shared::{Out, name_of, tell_status};
use feature_core::{ConditionalLinkImpl, EnabledLink, FeatureEdge, WeakSlashImpl};
use std::alloc::{AllocError, Global};

/// Writes `before`, the declarations that `link` covers, its status for each kind, and the numbers of its package links.
fn tell_link(out: &Out, before: &str, link: &ConditionalLinkImpl) {
    out.part(before);
    out.part(name_of(link.declarations()));
    tell_status(out, " normal=", "never", "always", link.normal());
    tell_status(out, " build=", "never", "always", link.build());
    tell_status(out, " dev=", "never", "always", link.dev());
    let mut between = " links=";
    for number in link.package_link_ixs() {
        out.number(between, *number);
        between = ",";
    }
}

/// Writes the link of `half`, or `none`.
fn tell_half(out: &Out, half: &EnabledLink) {
    match half.get() {
        Some(link) => tell_link(out, "; ", link),
        None => out.part("; none"),
    }
}

/// Writes the kind and link of `edge`; for a weak edge, its index, its full link and both halves.
pub fn tell_edge(out: &Out, edge: &FeatureEdge) {
    match edge {
        FeatureEdge::FeatureToBase => out.part("base"),
        FeatureEdge::NamedFeature => out.part("feature"),
        FeatureEdge::DependenciesSection(link) => tell_link(out, "section ", link),
        FeatureEdge::NamedFeatureDepColon(link) => tell_link(out, "dep-colon ", link),
        FeatureEdge::NamedFeatureWithSlash(link) => tell_link(out, "strong ", link),
        FeatureEdge::NamedFeatureWithWeakSlash(weak) => {
            out.number("weak(", weak.index().index());
            tell_link(out, ") ", weak.link());
            tell_half(out, weak.required());
            tell_half(out, weak.optional());
        }
    }
}

/// Returns a weak slash with copies of the link and both halves, and the same index; `AllocError` if an allocation fails.
fn copied_weak(alloc: Global, weak: &WeakSlashImpl) -> Result<WeakSlashImpl, AllocError> {
    let link = weak.link().try_clone(alloc)?;
    let required = weak.required().try_clone(alloc)?;
    let optional = weak.optional().try_clone(alloc)?;
    Ok(WeakSlashImpl::new(link, required, optional, weak.index()))
}

/// Returns a copy of `edge`; that of a slash edge is copied once more, a weak one as a whole and then by its parts. `AllocError` if
/// an allocation fails.
pub fn copied(alloc: Global, edge: &FeatureEdge) -> Result<FeatureEdge, AllocError> {
    let copy = edge.try_clone(alloc)?;
    match &copy {
        FeatureEdge::NamedFeatureWithSlash(link) => {
            let link = link.try_clone(alloc)?;
            Ok(FeatureEdge::NamedFeatureWithSlash(link))
        }
        FeatureEdge::NamedFeatureWithWeakSlash(weak) => {
            let weak = copied_weak(alloc, &weak.try_clone(alloc)?)?;
            let weak = Box::new(alloc, weak)?;
            Ok(FeatureEdge::NamedFeatureWithWeakSlash(weak))
        }
        _ => Ok(copy),
    }
}
