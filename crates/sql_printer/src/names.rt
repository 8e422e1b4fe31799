//! Names and literals.

ghost use Rattle.std.specs.Prelude.{◌≡◌, ◌++◌, ◌∷◌, [], IfOk, OnOk};
ghost use Rattle.std.specs.String.{string_bytes};
ghost use Rattle.vdb_base.specs.Print.{quoted};
ghost use Rattle.sql_printer.specs.Names as spec;
ghost use Rattle.sql_printer.specs.Said.{Number};
ghost use Rattle.sql_printer.specs.Said.{one};
ghost use Rattle.sql_printer.specs.Spelled.{spelled};

use crate::put::{put, put_optional};
use sql_reader::symbols::MINUS;
use sql_reader::tree::{ColumnName, Constant, Literal, Name, RelationName};
use std::alloc::Global;
use vdb_base::{NoMemory, Text, Value, print_value};

/// The name in quotes, each quote inside doubled.
fn quote(alloc: Global, name: &str) -> Result<String, NoMemory>
    ensures { IfOk result (λ made. string_bytes made ≡ quoted 34 name.now) }
{
    let mut made = String::from_str(alloc, "\"")?;
    let mut rest = name;
    while let Some((head, tail)) = rest.split_once('"') {
        made.push_str(head)?;
        made.push_str("\"\"")?;
        rest = tail;
    }
    made.push_str(rest)?;
    made.push_str("\"")?;
    Ok(made)
}

pub(crate) fn put_name(alloc: Global, name: &Name, out: &mut Text) -> Result<(), NoMemory>
    ensures { OnOk result (out.new ≡ out.old ++ spelled (spec.name name.now)) }
{
    let text = quote(alloc, name.text.as_str())?;
    put(&text, out)
}

#[tactic(auto, using(crate::proofs::Rules::name_rules))]
fn put_within(alloc: Global, name: &Option<Name>, out: &mut Text) -> Result<(), NoMemory>
    ensures { OnOk result (out.new ≡ out.old ++ spelled (spec.within name.now)) }
{
    match name {
        Some(name) => {
            put_name(alloc, name, out)?;
            put(".", out)
        }
        None => Ok(()),
    }
}

pub(crate) fn put_alias(alloc: Global, name: &Option<Name>, out: &mut Text) -> Result<(), NoMemory>
    ensures { OnOk result (out.new ≡ out.old ++ spelled (spec.alias name.now)) }
{
    match name {
        Some(name) => put_name(alloc, name, out),
        None => Ok(()),
    }
}

#[tactic(auto, using(crate::proofs::Rules::name_rules))]
pub(crate) fn put_relation(
    alloc: Global,
    relation: &RelationName,
    out: &mut Text,
) -> Result<(), NoMemory>
    ensures { OnOk result (out.new ≡ out.old ++ spelled (spec.relation relation.now)) }
{
    put_within(alloc, &relation.schema, out)?;
    put_name(alloc, &relation.name, out)
}

#[tactic(auto, using(crate::proofs::Rules::name_rules))]
pub(crate) fn put_column(alloc: Global, column: &ColumnName, out: &mut Text) -> Result<(), NoMemory>
    ensures { OnOk result (out.new ≡ out.old ++ spelled (spec.column column.now)) }
{
    match column {
        ColumnName::Plain(name) => put_name(alloc, name, out),
        ColumnName::Of { relation, name } => {
            put_name(alloc, relation, out)?;
            put(".", out)?;
            put_name(alloc, name, out)
        }
        ColumnName::InSchema {
            schema,
            relation,
            name,
        } => {
            put_name(alloc, schema, out)?;
            put(".", out)?;
            put_name(alloc, relation, out)?;
            put(".", out)?;
            put_name(alloc, name, out)
        }
    }
}

fn put_number(alloc: Global, number: u128, out: &mut Text) -> Result<(), NoMemory>
    ensures { OnOk result (out.new ≡ out.old ++ spelled (one (Number number))) }
{
    let text = format!(in alloc; "{number}")?;
    put(&text, out)
}

fn put_value(alloc: Global, value: &Value, whole: u128, out: &mut Text) -> Result<(), NoMemory>
    ensures { OnOk result (out.new ≡ out.old ++ spelled (one (spec.value_said value.now whole))) }
{
    match value {
        Value::Null => put("null", out),
        Value::Bool(true) => put("true", out),
        Value::Bool(false) => put("false", out),
        Value::Num(_) => put_number(alloc, whole, out),
        Value::Str(_) => {
            print_value(alloc, value, out)?;
            out.push_str(" ")
        }
    }
}

fn put_constant(alloc: Global, literal: &Literal, out: &mut Text) -> Result<(), NoMemory>
    ensures { OnOk result (out.new ≡ out.old ++ spelled (one (spec.constant_said literal.now.constant literal.now.whole))) }
{
    match &literal.constant {
        Constant::Value(value) => put_value(alloc, value, literal.whole, out),
        Constant::Fraction => put("0.5", out),
        Constant::TooLong => put_number(alloc, literal.whole, out),
    }
}

#[tactic(auto, using(crate::proofs::Rules::name_rules))]
pub(crate) fn put_literal(alloc: Global, literal: &Literal, out: &mut Text) -> Result<(), NoMemory>
    ensures { OnOk result (out.new ≡ out.old ++ spelled (spec.literal literal.now)) }
{
    put_optional(literal.negative, MINUS, "-", out)?;
    put_constant(alloc, literal, out)
}
