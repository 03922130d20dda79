//! The rows of a step.
ghost use Rattle.std.specs.Prelude.{◌≡◌, Ok, IfOk, IsTrue, is_ok, map};
ghost use Rattle.guppy_packages.specs.Graph.{tables_of};
ghost use Rattle.guppy_packages.specs.Rows.{row_text};

use guppy_packages::{PackageGraph, Row, RowError, RowFault, RowSource};
use std::alloc::{AllocError, Global};

/// The rows of a step of a plan. No row has a fault.
#[derive(Drop)]
pub struct StepRows<'n> {
    rows: Vec<Row<'n>>,
    ghost valid: { IsTrue (is_ok (tables_of (map row_text rows.items))) },
}

impl<'n> StepRows<'n> {
    ghost use Rattle.plan_rows.specs.StepRowsView.{row_texts};

    /// Returns `rows`, which have no fault.
    pub(crate) fn new(rows: Vec<Row<'n>>) -> StepRows<'n>
        requires { IsTrue (is_ok (tables_of (map row_text rows.items))) }
        ensures { row_texts result ≡ map row_text rows.entry.items }
    {
        StepRows { rows }
    }

    /// States that the rows have no fault.
    pub fn facts(&self)
        ensures { IsTrue (is_ok (tables_of (row_texts self.now))) }
    {
        let _ = &self.rows;
    }

    /// Returns the package graph of the rows. Returns `AllocError` if an allocation fails, or if there are 4294967296 package links
    /// or more.
    pub fn package_graph(&self, alloc: Global) -> Result<PackageGraph, AllocError>
        ensures { IfOk result (λ graph. tables_of (row_texts self.now) ≡ Ok graph) }
    {
        match PackageGraph::from_source(alloc, self) {
            Ok(graph) => Ok(graph),
            Err(
                RowError {
                    fault: RowFault::Memory,
                    ..
                },
            ) => Err(AllocError),
            Err(_) => unreachable!(),
        }
    }
}

impl RowSource for StepRows<'_> {
    ghost rows = { λ source. map row_text source.rows.items };

    fn row_count(&self) -> usize {
        self.rows.len()
    }

    fn row(&self, ix: usize) -> Row<'_> {
        self.rows[ix]
    }
}
