//! Laws of written rows. Each function does nothing: its contract is the law.
ghost use Rattle.laws.specs.rows.Laws.{WrittenRowsAreRead};

/// The lines of a document's text are read as exactly the document's rows, in their order, and these rows have no fault.
/// If the text is UTF-8, it is read as the tables of these rows.
pub fn written_rows_are_read()
    ensures { WrittenRowsAreRead }
{}
