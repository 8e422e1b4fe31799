//! Values from the text of fields.

ghost use Rattle.std.specs.Prelude.{◌≡◌, IfOk};
ghost use Rattle.csv_folder.specs.Cells as spec;

use resource::takes;
use std::alloc::Global;
use vdb_base::{NoMemory, TEXT_LIMIT, Text, Ty, Value};
use vdb_model::ColumnDef;

/// Whether two texts are one in lower case.
pub fn same_folded(a: &[u8], b: &[u8]) -> bool
    ensures { result ≡ spec.same_folded a.now b.now }
{
    a.eq_ignore_ascii_case(b)
}

fn after_spaces(text: &[u8]) -> &[u8]
    ensures { result.now ≡ spec.after_spaces text.now }
{
    let mut rest = text;
    while let Some((first, more)) = rest.split_first() {
        if *first != b' ' {
            return rest;
        }
        rest = more;
    }
    rest
}

/// A text without the spaces around it.
fn unspaced(text: &[u8]) -> &[u8]
    ensures { result.now ≡ spec.unspaced text.now }
{
    let mut rest = after_spaces(text);
    while let Some((last, more)) = rest.split_last() {
        if *last != b' ' {
            return rest;
        }
        rest = more;
    }
    rest
}

fn truth_of(text: &[u8]) -> Option<bool>
    ensures { result ≡ spec.truth_of text.now }
{
    if same_folded(b"true", text) || same_folded(b"t", text) || same_folded(b"1", text) {
        return Some(true);
    }
    if same_folded(b"false", text) || same_folded(b"f", text) || same_folded(b"0", text) {
        return Some(false);
    }
    None
}

fn number_of(text: &[u8]) -> Option<i128>
    ensures { result ≡ spec.number_of text.now }
{
    match str::from_utf8(text) {
        Ok(text) => text.parse::<i128>().ok(),
        Err(_) => None,
    }
}

fn text_of(alloc: Global, field: &[u8]) -> Result<Option<Value>, NoMemory>
    ensures { IfOk result (λ v. v ≡ spec.said Ty.Str field.now) }
{
    match str::from_utf8(field) {
        Ok(text) => Ok(Some(Value::Str(Text::from_str(alloc, text)?))),
        Err(_) => Ok(None),
    }
}

/// The value that a field says for a type.
fn value_of(alloc: Global, field: &[u8], ty: Ty) -> Result<Option<Value>, NoMemory>
    ensures { IfOk result (λ v. v ≡ spec.value_of ty field.now) }
{
    if field.is_empty() {
        return Ok(Some(Value::Null));
    }
    match ty {
        Ty::Boolean => Ok(truth_of(unspaced(field)).map(Value::Bool)),
        Ty::Integer | Ty::Long | Ty::BigInteger => Ok(number_of(unspaced(field)).map(Value::Num)),
        Ty::Str => text_of(alloc, field),
    }
}

/// The cell of a column, or none where the field says nothing that the column takes.
pub fn cell_of(alloc: Global, column: &ColumnDef, field: &[u8]) -> Result<Option<Value>, NoMemory>
    ensures { IfOk result (λ v. v ≡ spec.cell_of column.now field.now) }
{
    if matches!(column.ty, Ty::Str) && TEXT_LIMIT < field.len() {
        return Ok(None);
    }
    match value_of(alloc, field, column.ty)? {
        Some(v) if takes(column, &v) => Ok(Some(v)),
        _ => Ok(None),
    }
}
