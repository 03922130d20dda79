//! Rows that are generated on demand.
ghost use Rattle.std.specs.Prelude.{◌≡◌, ◌<◌, List, Some, length, map, slice_get};
ghost use Rattle.guppy_packages.specs.Rows.{RowText, row_text};

use crate::row::Row;

/// A source of rows that are generated on demand.
pub trait RowSource {
    /// The rows as plain values.
    ghost rows: { Self → List RowText };

    /// Returns the number of rows.
    fn row_count(&self) -> usize
        ensures { result ≡ length (rows self.now) };

    /// Returns row `ix`, counted from 0.
    fn row(&self, ix: usize) -> Row<'_>
        requires { ix < length (rows self.now) }
        ensures { slice_get (rows self.now) ix ≡ Some (row_text result) };
}

/// The rows of a slice.
#[derive(Drop)]
pub(crate) struct RowSlice<'s, 'r> {
    pub(crate) rows: &'s [Row<'r>],
}

impl RowSource for RowSlice<'_, '_> {
    ghost rows = { λ source. map row_text source.rows.now };

    fn row_count(&self) -> usize {
        self.rows.len()
    }

    fn row(&self, ix: usize) -> Row<'_> {
        self.rows[ix]
    }
}
