//! The package graph of rows or of tables.
ghost use Rattle.std.specs.Prelude.{◌≡◌, IfOk, IfErr, length, map};
ghost use Rattle.guppy_support.specs.digraph_orders.Sequences.{IsOrderOf};
ghost use Rattle.guppy_packages.specs.Graph.{NamesRow, Reads, tables_of};
ghost use Rattle.guppy_packages.specs.PackageOrder.{digraph_of_packages};
ghost use Rattle.guppy_packages.specs.Rows.{row_text};
ghost use Rattle.guppy_packages.specs.Stored.{link_tables, package_tables};
ghost use Rattle.guppy_packages.specs.Tables.{AreTables};
ghost use Rattle.guppy_packages.specs.inner.Begins.{AreAllBegun};

use crate::contents::Link;
use crate::link_begins::link_begins;
use crate::package_graph::PackageGraph;
use crate::package_list::PackageList;
use crate::package_order::package_order;
use crate::package_tables::PackageTables;
use crate::row::Row;
use crate::row_error::RowError;
use crate::row_source::{RowSlice, RowSource};
use guppy_support::Order;
use std::alloc::{AllocError, Global};

/// Returns the number of each package's first link, and the order of the packages.
fn begins_and_order(
    alloc: Global,
    packages: &PackageList,
    links: &[Link],
) -> Result<(Vec<u32>, Order), AllocError>
    requires { AreTables (record { packages = package_tables packages.now; links = link_tables links.now }) }
    ensures begins { IfOk result (λ both. AreAllBegun (length (package_tables packages.now)) (link_tables links.now) both.0.items) }
    ensures order { IfOk result (λ both. IsOrderOf (digraph_of_packages (record { packages = package_tables packages.now; links = link_tables links.now })) both.1) }
{
    let begins = link_begins(alloc, packages, links)?;
    let order = package_order(alloc, packages, links)?;
    Ok((begins, order))
}

impl PackageGraph {
    /// Returns the graph of `rows`, or the first fault. Faults of rows by themselves precede those among all packages. `Memory`
    /// is returned when an allocation fails, or if there are more than 4294967295 texts of features and dependencies, or package
    /// links, or more than 2147483647 packages ([limits](../../../docs/DIFFERENCES.md#limits)).
    pub fn from_rows(alloc: Global, rows: &[Row]) -> Result<PackageGraph, RowError>
        ensures tables { Reads (λ graph. graph) result (tables_of (map row_text rows.now)) }
        ensures row { IfErr result (NamesRow rows.now) }
    {
        PackageGraph::from_source(alloc, &RowSlice { rows })
    }

    /// Returns the graph of the rows of `source`, or the first fault, as `from_rows` does. Each row is requested at most four times.
    pub fn from_source<S: RowSource>(alloc: Global, source: &S) -> Result<PackageGraph, RowError>
        ensures tables { Reads (λ graph. graph) result (tables_of (S.rows source.now)) }
        ensures row { IfErr result (NamesRow (S.rows source.now)) }
    {
        let tables = PackageTables::from_source(alloc, source)?;
        Ok(PackageGraph::from_tables(alloc, tables)?)
    }

    /// Returns the graph of `tables`, with the packages in order. Returns `AllocError` if an allocation fails, or if there are more than
    /// 2147483647 packages ([limits](../../../docs/DIFFERENCES.md#limits)).
    pub fn from_tables(alloc: Global, tables: PackageTables) -> Result<PackageGraph, AllocError>
        ensures { IfOk result (λ graph. graph ≡ tables) }
    {
        let (packages, links) = tables.into_parts();
        let (begins, order) = begins_and_order(alloc, &packages, &links)?;
        Ok(PackageGraph {
            packages,
            links,
            begins,
            order,
        })
    }
}
