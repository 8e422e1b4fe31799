//! The laws: each is the contract of a function that takes nothing and does nothing.

ghost use Rattle.walk_laws.specs.Closed.{QueriesAreClosed, StatementsAreClosed};
ghost use Rattle.walk_laws.specs.Typed.{QueriesAreTyped};
ghost use Rattle.walk_laws.specs.TypedStatements.{StatementsAreTyped};

/// The relation of a resolved query names only views that are there, and reads no variable.
pub fn queries_are_closed()
    ensures { QueriesAreClosed }
{}

/// So does that of a resolved statement, and with every view expanded it is within the limits of size.
pub fn statements_are_closed()
    ensures { StatementsAreClosed }
{}

/// Over a catalog whose tables are numbered by their places, the columns of a resolved query have the types that it says.
pub fn queries_are_typed()
    ensures { QueriesAreTyped }
{}

/// Over such a catalog a resolved statement is typed: a number goes into a column of any number's type, and any other value into
/// one of its own.
pub fn statements_are_typed()
    ensures { StatementsAreTyped }
{}
