//! What holds of the definitions: each law is the contract of a function without a body.

ghost use Rattle.sql_reader.specs.Symbols as symbol;
ghost use Rattle.sql_reader.specs.Trees as tree;

/// Every statement of the grammar builds one tree: no action lacks a part, and no part is left.
pub fn one_statement_built()
    ensures { tree.OneStatementBuilt }
{}

/// Every query without an order builds one tree.
pub fn one_query_built()
    ensures { tree.OneQueryBuilt }
{}

/// A statement has one derivation, and so has a query without an order: no tree is chosen among several.
pub fn one_log()
    ensures statements { tree.OneLog symbol.STATEMENT_RULE }
    ensures queries { tree.OneLog symbol.SET_ONLY_RULE }
{}
