//! From the bytes of a row file to its tables and to the package graph.
ghost use Rattle.std.specs.Prelude.{◌≡◌};
ghost use Rattle.row_files.specs.FirstFault.{Gives};
ghost use Rattle.row_files.specs.RowFile.{lines_of, tables_of_lines, tables_in};

use crate::error::RowFileError;
use crate::lines::Lines;
use crate::rows::LineRows;
use guppy_packages::{PackageGraph, PackageTables, RowFault};
use std::alloc::{AllocError, Global};

/// Returns the tables of `lines`. Returns `Malformed` for the first malformed line. If there is none, returns `Row` for the first fault
/// of the rows. Returns `Memory` if [`PackageTables::from_source`] does ([limits](../../../docs/DIFFERENCES.md#limits)).
pub fn tables_of_lines(alloc: Global, lines: &Lines) -> Result<PackageTables, RowFileError>
    ensures { Gives (λ tables. tables) result (tables_of_lines (lines_of lines.now)) }
{
    let rows = LineRows::of(lines)?;
    match PackageTables::from_source(alloc, &rows) {
        Ok(tables) => Ok(tables),
        Err(error) => match error.fault {
            RowFault::Memory => Err(RowFileError::Memory),
            fault => Err(RowFileError::Row {
                line: lines.line_number(error.row),
                fault,
            }),
        },
    }
}

/// Builds the package graph of `lines`. The errors are those of [`tables_of_lines`] and of [`PackageGraph::from_tables`].
pub fn graph_of_lines(alloc: Global, lines: &Lines) -> Result<PackageGraph, RowFileError>
    ensures { Gives (λ graph. graph) result (tables_of_lines (lines_of lines.now)) }
{
    let tables = tables_of_lines(alloc, lines)?;
    Ok(PackageGraph::from_tables(alloc, tables)?)
}

/// Returns the tables of a row file's bytes. Returns `NotText` if they aren't UTF-8, `Memory` if [`Lines::of`] fails, and otherwise the
/// errors of [`tables_of_lines`]. [`PackageGraph::from_tables`] makes the graph of the tables; the bytes can be dropped before.
pub fn tables_of(alloc: Global, bytes: &[u8]) -> Result<PackageTables, RowFileError>
    ensures { Gives (λ tables. tables) result (tables_in bytes.now) }
{
    let Ok(text) = str::from_utf8(bytes) else {
        return Err(RowFileError::NotText);
    };
    let lines = Lines::of(alloc, text)?;
    tables_of_lines(alloc, &lines)
}

/// Builds the package graph of a row file's bytes. The errors are those of [`tables_of`] and of [`PackageGraph::from_tables`].
pub fn graph_of(alloc: Global, bytes: &[u8]) -> Result<PackageGraph, RowFileError>
    ensures { Gives (λ graph. graph) result (tables_in bytes.now) }
{
    let tables = tables_of(alloc, bytes)?;
    Ok(PackageGraph::from_tables(alloc, tables)?)
}
