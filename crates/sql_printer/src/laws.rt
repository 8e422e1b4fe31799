//! What holds of printed queries.

ghost use Rattle.sql_printer.specs.Laws.{PrintedIsRead};

/// The text of a query that was read is a statement: that query again, but for places.
pub fn printed_is_read()
    ensures { PrintedIsRead }
{}
