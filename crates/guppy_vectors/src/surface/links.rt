//! Links and edges as text.
use crate::shared::{Out, name_of, tell_status};
use guppy_features::{ConditionalLink, FeatureEdge, FeatureId, LinkDeclarations, PackageLink};

/// Writes the ends `from` and `to` of a link, and the declarations that it covers.
pub fn tell_ends(
    out: &Out,
    from: FeatureId<'_>,
    to: FeatureId<'_>,
    declarations: LinkDeclarations,
) {
    out.shown(from);
    out.id(to);
    out.text(" ", name_of(declarations));
}

/// Writes the ends of `link`, and the name of its declarations.
pub fn tell_package_link(out: &Out, link: PackageLink<'_>) {
    out.text(" ", link.from().id().repr());
    out.text(">", link.to().id().repr());
    out.text(":", link.dep_name());
}

/// Writes the normal, build and dev status of `link` (`-` for never, `*` for always), its package links, and `dev-only` for a dev-only link.
pub fn tell_rest(out: &Out, link: ConditionalLink<'_>) {
    tell_status(out, " ", "-", "*", link.normal());
    tell_status(out, " ", "-", "*", link.build());
    tell_status(out, " ", "-", "*", link.dev());
    for package_link in link.package_links() {
        tell_package_link(out, package_link);
    }
    out.part_if(link.dev_only(), " dev-only");
}

/// Writes `link` on a line: its ends, its declarations, and what `tell_rest` writes.
pub fn tell_link(out: &Out, link: ConditionalLink<'_>) {
    let (from, to) = link.endpoints();
    tell_ends(out, from.feature_id(), to.feature_id(), link.declarations());
    tell_rest(out, link);
    out.line("");
}

/// Writes an edge on a line: its ends `from` and `to`, and its kind.
pub fn tell_edge(out: &Out, from: FeatureId<'_>, to: FeatureId<'_>, edge: &FeatureEdge) {
    out.shown(from);
    out.id(to);
    out.line(match edge {
        FeatureEdge::FeatureToBase => " base",
        FeatureEdge::DependenciesSection(_) => " section",
        FeatureEdge::NamedFeature => " named",
        FeatureEdge::NamedFeatureDepColon(_) => " dep-colon",
        FeatureEdge::NamedFeatureWithSlash(_) => " strong",
        FeatureEdge::NamedFeatureWithWeakSlash(_) => " weak",
    });
}
