//! Writing values, rows and deltas as the log has them.
//!
//! A length past the bytes that are there for it is refused as if memory was wanting: no row, text or list of rows of an
//! attached table is so long.

ghost use Rattle.std.specs.Prelude.{OnOk, ◌^◌, nat_lt};
ghost use Rattle.std.specs.List.{flat_map, list_all};
ghost use Rattle.vdb_base.specs.declared.value.Value.TheVariants.{Num};
ghost use Rattle.std.specs.Int.{w16, w32, to_be_bytes};
ghost use Rattle.store_records.specs.Fields as fields;
ghost use Rattle.store_records.specs.Payloads as spec;
ghost use Rattle.store_records.specs.Writing.{Writes};

use resource::StoredDelta;
use vdb_base::{NoMemory, Row, Rows, Value};

/// The greatest length in 2 bytes, and in 4.
const SHORT: usize = 65_535;

const LONG: usize = 4_294_967_295;

#[tactic(auto, using(crate::proofs::Rules::writing_rules))]
fn put_length_16(out: &mut Vec<u8>, len: usize) -> Result<(), NoMemory>
    ensures { OnOk result (Writes (nat_lt len (2 ^ 16)) (to_be_bytes w16 len) out.old.items out.new.items) }
{
    if len > SHORT {
        return Err(NoMemory);
    }
    out.extend_from_slice(&(len as u16).to_be_bytes())?;
    Ok(())
}

#[tactic(auto, using(crate::proofs::Rules::writing_rules))]
fn put_length_32(out: &mut Vec<u8>, len: usize) -> Result<(), NoMemory>
    ensures { OnOk result (Writes (nat_lt len (2 ^ 32)) (to_be_bytes w32 len) out.old.items out.new.items) }
{
    if len > LONG {
        return Err(NoMemory);
    }
    out.extend_from_slice(&(len as u32).to_be_bytes())?;
    Ok(())
}

#[tactic(auto, using(crate::proofs::Rules::writing_rules))]
fn put_text(out: &mut Vec<u8>, text: &str) -> Result<(), NoMemory>
    ensures { OnOk result (Writes (fields.is_text 32 text.now) (fields.lettered w32 text.now) out.old.items out.new.items) }
{
    put_length_32(out, text.len())?;
    out.extend_from_slice(text.as_bytes())?;
    Ok(())
}

#[tactic(auto, using(crate::proofs::Rules::writing_rules))]
fn put_name(out: &mut Vec<u8>, name: &str) -> Result<(), NoMemory>
    ensures { OnOk result (Writes (fields.is_text 16 name.now) (fields.lettered w16 name.now) out.old.items out.new.items) }
{
    put_length_16(out, name.len())?;
    out.extend_from_slice(name.as_bytes())?;
    Ok(())
}

#[tactic(auto, using(crate::proofs::Rules::writing_rules))]
fn put_number(out: &mut Vec<u8>, number: i128) -> Result<(), NoMemory>
    ensures { OnOk result (Writes (spec.has_value (Num number)) (spec.value_bytes (Num number)) out.old.items out.new.items) }
{
    out.push(3)?;
    out.extend_from_slice(&number.to_be_bytes())?;
    Ok(())
}

#[tactic(auto, using(crate::proofs::Rules::writing_rules))]
fn put_value(out: &mut Vec<u8>, v: &Value) -> Result<(), NoMemory>
    ensures { OnOk result (Writes (spec.has_value v.now) (spec.value_bytes v.now) out.old.items out.new.items) }
{
    match v {
        Value::Null => out.push(0)?,
        Value::Bool(false) => out.push(1)?,
        Value::Bool(true) => out.push(2)?,
        Value::Num(number) => put_number(out, *number)?,
        Value::Str(text) => {
            out.push(4)?;
            put_text(out, text.as_str())?;
        }
    }
    Ok(())
}

#[tactic(auto, using(crate::proofs::Rules::writing_rules))]
fn put_values(out: &mut Vec<u8>, row: &[Value]) -> Result<(), NoMemory>
    ensures { OnOk result (Writes (list_all spec.has_value row.now) (flat_map spec.value_bytes row.now) out.old.items out.new.items) }
{
    for v in row {
        put_value(out, v)?;
    }
    Ok(())
}

#[tactic(auto, using(crate::proofs::Rules::writing_rules))]
fn put_row(out: &mut Vec<u8>, row: &Row) -> Result<(), NoMemory>
    ensures { OnOk result (Writes (spec.has_row row.now) (spec.row_bytes row.now) out.old.items out.new.items) }
{
    put_length_16(out, row.len())?;
    put_values(out, row.as_slice())?;
    Ok(())
}

#[tactic(auto, using(crate::proofs::Rules::writing_rules))]
fn put_each_row(out: &mut Vec<u8>, rows: &[Row]) -> Result<(), NoMemory>
    ensures { OnOk result (Writes (list_all spec.has_row rows.now) (flat_map spec.row_bytes rows.now) out.old.items out.new.items) }
{
    for row in rows {
        put_row(out, row)?;
    }
    Ok(())
}

#[tactic(auto, using(crate::proofs::Rules::writing_rules))]
fn put_rows(out: &mut Vec<u8>, rows: &Rows) -> Result<(), NoMemory>
    ensures { OnOk result (Writes (spec.has_rows rows.now) (spec.rows_bytes rows.now) out.old.items out.new.items) }
{
    put_length_32(out, rows.len())?;
    put_each_row(out, rows.as_slice())?;
    Ok(())
}

/// Adds a delta to the bytes; where it is refused, a part of it may have been added.
#[tactic(auto, using(crate::proofs::Rules::writing_rules))]
pub fn put_delta(out: &mut Vec<u8>, delta: &StoredDelta) -> Result<(), NoMemory>
    ensures { OnOk result (Writes (spec.has_delta delta.now) (spec.delta_bytes delta.now) out.old.items out.new.items) }
{
    put_name(out, delta.source.as_str())?;
    put_rows(out, &delta.removed)?;
    put_rows(out, &delta.added)?;
    Ok(())
}
