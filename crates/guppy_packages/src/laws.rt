//! Laws of package graphs. Each function does nothing: its contract is the law.
ghost use Rattle.guppy_packages.specs.PackageOrder.{LinksAreEdges};

/// States that the digraph of packages is valid, and that its edges are exactly those of the links.
pub fn links_are_edges()
    ensures { LinksAreEdges }
{}
