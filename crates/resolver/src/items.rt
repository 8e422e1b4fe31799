//! What an item list gives.

ghost use Rattle.std.specs.Prelude.{◌≡◌, ◌++◌, [], IfOk, OnOk, Ok, codes};
ghost use Rattle.std.specs.Option.{option_copied};
ghost use Rattle.vdb_model.specs.Lines.{number_text};
ghost use Rattle.expr_resolver.specs.Answers.{Meets, Resolves};
ghost use Rattle.resolver.specs.Items as spec;

use crate::selected::{Choices, Chosen, Column, Columns};
use expr_resolver::aggregates::place;
use expr_resolver::exprs::walk;
use expr_resolver::lookup::{column_over, last_name};
use expr_resolver::{Entry, Known, Names, Over, ResolveFault};
use sql_reader::tree::{Expr, Name, SelectItem};
use sqlite_items::Items;
use std::alloc::Global;
use vdb_base::{NoMemory, Seq, Text, Ty};
use vdb_model::{Aggs, Exprs, Refusal, VarDef, VarDefs, printed};

/// The name of the column that an expression is, in parentheses or not.
#[tactic(auto, using(crate::proofs::Rules::item_rules))]
fn column_name(e: &Expr) -> Option<&Text>
    ensures { option_copied result ≡ spec.column_name e.now }
{
    match e {
        Expr::Column(c) => Some(last_name(c)),
        Expr::Parens { inner, .. } => column_name(inner.get()),
        Expr::Literal(_) => None,
        Expr::Negate { .. } => None,
        Expr::Chain { .. } => None,
        Expr::Not { .. } => None,
        Expr::Compare { .. } => None,
        Expr::IsNull { .. } => None,
        Expr::In { .. } => None,
        Expr::Like { .. } => None,
        Expr::Between { .. } => None,
        Expr::CountAll { .. } => None,
        Expr::Aggregate { .. } => None,
        Expr::Coalesce { .. } => None,
        Expr::Case { .. } => None,
    }
}

#[tactic(auto, unfolding(vdb_model::specs::Lines::number_text))]
fn numbered(alloc: Global, n: usize) -> Result<Text, NoMemory>
    ensures { IfOk result (λ made. made ≡ codes "expr" ++ number_text n) }
{
    Ok(Text::from_string(format!(in alloc; "expr{n}")?))
}

/// The name of an item without an alias.
fn own_name(alloc: Global, n: usize, e: &Expr) -> Result<Text, NoMemory>
    ensures { IfOk result (λ made. made ≡ spec.name_or_number (spec.column_name e.now) n) }
{
    match column_name(e) {
        None => Ok(numbered(alloc, n)?),
        Some(name) => Ok(name.copy(alloc)?),
    }
}

fn item_name(alloc: Global, alias: &Option<Name>, n: usize, e: &Expr) -> Result<Text, NoMemory>
    ensures { IfOk result (λ made. made ≡ spec.item_name alias.now n e.now) }
{
    match alias {
        None => Ok(own_name(alloc, n, e)?),
        Some(alias) => Ok(alias.text.copy(alloc)?),
    }
}

fn chosen_by(alloc: Global, name: Text, k: Known) -> Result<Choices, ResolveFault>
    ensures { Resolves (spec.chosen_by name k) result }
{
    let mut made = Seq::new(alloc);
    made.push(Chosen {
        expr: k.expr,
        column: Column {
            name,
            ty: k.ty,
            first: k.first,
        },
    })?;
    Ok(made)
}

fn column_chosen(
    alloc: Global,
    first: usize,
    name: &Text,
    column: (u32, Ty),
) -> Result<Chosen, ResolveFault>
    ensures { Resolves (spec.column_chosen first name.now column) result }
{
    let (number, ty) = column;
    Ok(Chosen {
        expr: vdb_model::Expr::Col(number),
        column: Column {
            name: name.copy(alloc)?,
            ty: Some(ty),
            first,
        },
    })
}

/// Columns in turn, by their places from `at` on.
fn columns_chosen(
    alloc: Global,
    names: &Names,
    over: Over,
    first: usize,
    at: u32,
    columns: &[VarDef],
) -> Result<Choices, ResolveFault>
    ensures { Resolves (spec.columns_chosen names.now over first at columns.now []) result }
{
    let mut made = Seq::new(alloc);
    let mut number = at;
    for column in columns {
        let seen = column_over(over, names.keys.as_slice(), first, (number, column.ty))?;
        made.push(column_chosen(alloc, first, &column.name, seen)?)?;
        number = place(number as usize, 1)?;
    }
    Ok(made)
}

fn all_columns(alloc: Global, entries: &[Entry]) -> Result<VarDefs, NoMemory>
    ensures { IfOk result (λ made. made ≡ spec.all_columns entries.now) }
{
    let mut made = Seq::new(alloc);
    for entry in entries {
        made.append(entry.columns.copy(alloc)?)?;
    }
    Ok(made)
}

fn columns_named(
    alloc: Global,
    name: &Text,
    entries: &[Entry],
) -> Result<Vec<(u32, VarDefs)>, NoMemory>
    ensures { IfOk result (λ found. found.items ≡ spec.columns_named 0 name.now entries.now) }
{
    let mut found = Vec::new(alloc);
    let mut at = 0;
    for entry in entries {
        if entry.name == *name {
            found.push((at, entry.columns.copy(alloc)?))?;
        }
        at = place(at as usize, entry.columns.len())?;
    }
    Ok(found)
}

fn columns_of_entry(
    alloc: Global,
    names: &Names,
    over: Over,
    relation: &Name,
) -> Result<Choices, ResolveFault>
    ensures { Resolves (spec.columns_of_entry names.now over relation.now) result }
{
    let found = columns_named(alloc, &relation.text, names.entries.as_slice())?;
    match found.as_slice() {
        [] => Err(ResolveFault::Refused(Refusal::Unknown {
            name: printed(alloc, &relation.text)?,
        })),
        [entry] => Ok(columns_chosen(
            alloc,
            names,
            over,
            relation.at,
            entry.0,
            entry.1.as_slice(),
        )?),
        [_, _, ..] => Err(ResolveFault::Refused(Refusal::Ambiguous {
            name: printed(alloc, &relation.text)?,
        })),
    }
}

/// The columns of an item, which is the `n`th.
fn item_walk(
    alloc: Global,
    names: &Names,
    over: Over,
    n: usize,
    item: &SelectItem,
    aggs: &mut Aggs,
) -> Result<Choices, ResolveFault>
    ensures { Meets (spec.item_walk names.now over n item.now aggs.old) result aggs.new }
{
    match item {
        SelectItem::All { at } => {
            let columns = all_columns(alloc, names.entries.as_slice())?;
            Ok(columns_chosen(alloc, names, over, *at, 0, columns.as_slice())?)
        }
        SelectItem::AllOf { relation } => Ok(columns_of_entry(alloc, names, over, relation)?),
        SelectItem::Expr { expr, alias } => {
            let k = walk(alloc, names, over, expr, aggs)?;
            let name = item_name(alloc, alias, n, expr)?;
            Ok(chosen_by(alloc, name, k)?)
        }
    }
}

/// The columns of all items in turn.
pub fn items_walk(
    alloc: Global,
    names: &Names,
    over: Over,
    items: &[SelectItem],
    aggs: &mut Aggs,
) -> Result<Choices, ResolveFault>
    ensures { Meets (spec.items_walk names.now over 1 items.now [] aggs.old) result aggs.new }
{
    let mut made = Seq::new(alloc);
    for (at, item) in items.iter().enumerate() {
        made.append(item_walk(alloc, names, over, at + 1, item, aggs)?)?;
    }
    Ok(made)
}

fn first_column(chosen: &[Chosen]) -> usize
    ensures { result ≡ spec.first_column chosen.now }
{
    match chosen.first() {
        None => 0,
        Some(chosen) => chosen.column.first,
    }
}

/// The place of the first token of the list.
pub fn first_of(items: &[SelectItem], chosen: &[Chosen]) -> usize
    ensures { result ≡ spec.first_of items.now chosen.now }
{
    match items.first() {
        None => 0,
        Some(SelectItem::All { at }) => *at,
        Some(SelectItem::AllOf { relation }) => relation.at,
        Some(SelectItem::Expr { .. }) => first_column(chosen),
    }
}

/// The expressions, and the columns.
#[tactic(auto, using(crate::proofs::Rules::split_rules))]
pub fn split(alloc: Global, chosen: Choices) -> Result<(Exprs, Columns), NoMemory>
    ensures { IfOk result (λ made. made ≡ (spec.exprs_of chosen, spec.columns_of chosen)) }
{
    let mut exprs = Vec::with_capacity(alloc, chosen.len())?;
    let mut columns = Seq::new(alloc);
    for c in chosen.into_vec() {
        exprs.push(c.expr)?;
        columns.push(c.column)?;
    }
    Ok((Items::from_vec(exprs), columns))
}
