//! Which definitions of tables are fit for a resource.

ghost use Rattle.std.specs.Prelude.{◌≡◌, slice_index_or};
ghost use Rattle.std.specs.List.{list_any};
ghost use Rattle.vdb_model.specs.Defs as spec;

use crate::can::is_defined;
use crate::source::Caps;
use crate::table::{ColumnDef, TableDef, TableDefs};
use vdb_base::{Nums, Text};

fn all_below(limit: usize, ats: &[u32]) -> bool
    ensures { result ≡ spec.all_below limit ats.now }
{
    for at in ats {
        if limit <= *at as usize {
            return false;
        }
    }
    true
}

fn is_required(columns: &[ColumnDef], at: u32) -> bool
    ensures { result ≡ (slice_index_or columns.now at spec.no_column).not_null }
{
    match columns.get(at as usize) {
        Some(column) => column.not_null,
        None => false,
    }
}

fn all_required(columns: &[ColumnDef], ats: &[u32]) -> bool
    ensures { result ≡ spec.all_required columns.now ats.now }
{
    for at in ats {
        if !is_required(columns, *at) {
            return false;
        }
    }
    true
}

/// Whether these are one column or more of a table.
fn names_columns(columns: &[ColumnDef], ats: &[u32]) -> bool
    ensures { result ≡ spec.names_columns columns.now ats.now }
{
    0 < ats.len() && all_below(columns.len(), ats)
}

fn is_fit_key(columns: &[ColumnDef], key: &Option<Nums>) -> bool
    ensures { result ≡ spec.is_fit_key columns.now key.now }
{
    match key {
        None => true,
        Some(ats) => {
            names_columns(columns, ats.as_slice()) && all_required(columns, ats.as_slice())
        }
    }
}

fn are_fit_patterns(columns: &[ColumnDef], patterns: &[Nums]) -> bool
    ensures { result ≡ spec.are_fit_patterns columns.now patterns.now }
{
    for ats in patterns {
        if !names_columns(columns, ats.as_slice()) {
            return false;
        }
    }
    true
}

fn is_fit(def: &TableDef) -> bool
    ensures { result ≡ spec.is_fit def.now }
{
    0 < def.columns.len()
        && def.columns.len() <= 256
        && 0 < def.source.len()
        && def.source.len() <= 64
        && is_fit_key(def.columns.as_slice(), &def.key)
        && are_fit_patterns(def.columns.as_slice(), def.patterns.as_slice())
}

fn all_fit(defs: &[TableDef]) -> bool
    ensures { result ≡ spec.all_fit defs.now }
{
    for def in defs {
        if !is_fit(def) {
            return false;
        }
    }
    true
}

fn are_numbered_apart(defs: &[TableDef]) -> bool
    ensures { result ≡ spec.are_numbered_apart defs.now }
{
    let mut left = defs;
    while let [def, others @ ..] = left {
        if is_defined(others, def.number) {
            return false;
        }
        left = others;
    }
    true
}

/// Whether the source names of two tables are one in lower case.
fn same_source(source: &Text, def: &TableDef) -> bool
    ensures { result ≡ spec.same_source source.now def.now }
{
    source
        .as_bytes()
        .eq_ignore_ascii_case(def.source.as_bytes())
}

fn is_named(source: &Text, defs: &[TableDef]) -> bool
    ensures { result ≡ list_any (spec.same_source source.now) defs.now }
{
    for def in defs {
        if same_source(source, def) {
            return true;
        }
    }
    false
}

fn are_named_apart(defs: &[TableDef]) -> bool
    ensures { result ≡ spec.are_named_apart defs.now }
{
    let mut left = defs;
    while let [def, others @ ..] = left {
        if is_named(&def.source, others) {
            return false;
        }
        left = others;
    }
    true
}

/// Whether a resource of these capabilities can take the tables. It takes no memory.
pub fn are_fit(caps: &Caps, defs: &TableDefs) -> bool
    ensures { result ≡ spec.are_fit caps.now defs.now }
{
    let defs = defs.as_slice();
    all_fit(defs) && are_numbered_apart(defs) && (!caps.writes || are_named_apart(defs))
}
