//! A folder of CSV files as a store that is read alone.
//!
//! `CsvFolder` is a `Resource` over files that it is given whole, as their names and bytes; it opens none. A table is the file
//! of its source name and `.csv`. The first record names the columns by their source names, in any order and case, and columns
//! that the table lacks are passed over. An empty field is NULL, a number an optional sign and digits, a boolean `true`,
//! `false`, `t`, `f`, `1` or `0` in any case, both with spaces around them, and a string the field as it stands.
//!
//! A file that breaks these rules is refused when its table is attached, exactly at its first fault: the form of the file
//! before its cells, and a cell by row and column. What is attached answers every query that the capabilities allow, and
//! exactly: rows of one table by equalities, IN and IS NULL, cut to columns. It says that nothing can be written, so no branch
//! is begun on it; it never fails, and a stop leaves it as it is. A file is read in one pass and no copy of it is made. It
//! stands in a lane of the engine as every store does.
#![tactic(auto)]

mod cells;
mod file;
mod folder;
mod header;
mod records;
mod rows;
mod said;
mod seen;
mod table;
mod tables;

pub use file::{File, Files};
pub use folder::{CsvFolder, csv_caps};

#[cfg(test)]
mod tests;
