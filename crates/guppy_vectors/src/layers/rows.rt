//! A call on a slice of rows.
use crate::layers::packages::graph;
use crate::shared::{Failure, Out};
use guppy_packages::{DependencyKind, PackageGraph, Row};
use std::alloc::Global;

/// Writes the package graph of a slice with rows of each kind, or returns the failure of the rows.
pub fn from_rows(out: &Out, alloc: Global) -> Result<(), Failure> {
    let rows = [
        Row::Package {
            id: "main",
            in_workspace: true,
        },
        Row::Feature {
            name: "smallvec",
            items: &["dep:smallvec", "foo"],
        },
        Row::Dep {
            name: "smallvec",
            target: "sv",
            kind: DependencyKind::Build,
            optional: true,
            platform: Some("cfg(unix)"),
            default_features: false,
            features: &["union", "write"],
        },
        Row::Package {
            id: "sv",
            in_workspace: false,
        },
        Row::Feature {
            name: "union",
            items: &[],
        },
    ];
    let made = PackageGraph::from_rows(alloc, &rows)?;
    let told = graph(out, &made);
    drop(made);
    told
}
