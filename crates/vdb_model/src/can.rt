//! Which criteria and source queries the capabilities of a source allow.

ghost use Rattle.std.specs.Prelude.{◌≡◌, Some, length, nat_le, nat_lt, sum};
ghost use Rattle.vdb_model.specs.Can as spec;
ghost use Rattle.vdb_model.specs.Can.{form, forms, widths_of};
ghost use Rattle.vdb_model.specs.Defs.{def_of, is_defined, all_below};

use crate::expr::{CmpOp, Expr};
use crate::rel::Key;
use crate::source::{Caps, SourceQuery};
use crate::table::{TableDef, TableDefs};
use vdb_base::Value;

/// The tables that columns are numbered through.
#[derive(Clone, Copy)]
struct Scope<'a> {
    tables: &'a [u32],
    defs: &'a [TableDef],
}

fn width_of(defs: &[TableDef], table: u32) -> usize
    ensures { result ≡ length (def_of defs.now table).columns }
{
    for def in defs {
        if def.number == table {
            return def.columns.len();
        }
    }
    0
}

fn server_of(defs: &[TableDef], table: u32) -> u32
    ensures { result ≡ (def_of defs.now table).server }
{
    for def in defs {
        if def.number == table {
            return def.server;
        }
    }
    0
}

/// Whether a table has the number.
pub fn is_defined(defs: &[TableDef], table: u32) -> bool
    ensures { result ≡ is_defined defs.now table }
{
    for def in defs {
        if def.number == table {
            return true;
        }
    }
    false
}

#[tactic(auto, using(crate::proofs::CanRules::form_rules))]
fn column(e: &Expr, caps: Caps, scope: Scope<'_>) -> Option<u32>
    ensures { result ≡ (form caps (widths_of scope.entry.defs.now scope.entry.tables.now) e.now).column }
{
    match e {
        Expr::Col(at) => Some(*at),
        Expr::Var(_)
        | Expr::Const(_)
        | Expr::Not(_)
        | Expr::And(_)
        | Expr::Or(_)
        | Expr::Cmp(_, _, _)
        | Expr::IsNull(_)
        | Expr::In(_, _)
        | Expr::Like(_, _)
        | Expr::Arith(_, _, _)
        | Expr::Neg(_)
        | Expr::Concat(_)
        | Expr::Case(_, _)
        | Expr::Coalesce(_) => None,
    }
}

fn is_column(e: &Expr, caps: Caps, scope: Scope<'_>) -> bool
    ensures { result ≡ spec.is_column (form caps (widths_of scope.entry.defs.now scope.entry.tables.now) e.now) }
{
    match column(e, caps, scope) {
        Some(_) => true,
        None => false,
    }
}

fn good_value(caps: Caps, v: &Value) -> bool
    ensures { result ≡ spec.good_value caps (Some v.now) }
{
    match v {
        Value::Null => false,
        Value::Bool(_) | Value::Str(_) => true,
        Value::Num(n) => caps.wide || (-9223372036854775808 <= *n && *n <= 9223372036854775807),
    }
}

#[tactic(auto, using(crate::proofs::CanRules::form_rules))]
fn good_constant(e: &Expr, caps: Caps, scope: Scope<'_>) -> bool
    ensures { result ≡ spec.good_constant caps (form caps (widths_of scope.entry.defs.now scope.entry.tables.now) e.now) }
{
    match e {
        Expr::Const(v) => good_value(caps, v),
        Expr::Col(_)
        | Expr::Var(_)
        | Expr::Not(_)
        | Expr::And(_)
        | Expr::Or(_)
        | Expr::Cmp(_, _, _)
        | Expr::IsNull(_)
        | Expr::In(_, _)
        | Expr::Like(_, _)
        | Expr::Arith(_, _, _)
        | Expr::Neg(_)
        | Expr::Concat(_)
        | Expr::Case(_, _)
        | Expr::Coalesce(_) => false,
    }
}

fn all_constants(es: &[Expr], caps: Caps, scope: Scope<'_>) -> bool
    ensures { result ≡ spec.all_constants caps (forms caps (widths_of scope.entry.defs.now scope.entry.tables.now) es.now) }
{
    for e in es {
        if !good_constant(e, caps, scope) {
            return false;
        }
    }
    true
}

#[tactic(auto, using(crate::proofs::CanRules::length_forms))]
fn any_form(es: &[Expr], caps: Caps, scope: Scope<'_>) -> bool
    ensures { result ≡ spec.any_form (forms caps (widths_of scope.entry.defs.now scope.entry.tables.now) es.now) }
{
    0 < es.len()
}

#[tactic(auto, using(crate::proofs::CanRules::length_forms))]
fn fits_in(es: &[Expr], caps: Caps, scope: Scope<'_>) -> bool
    ensures { result ≡ nat_le (length (forms caps (widths_of scope.entry.defs.now scope.entry.tables.now) es.now)) caps.in_max }
{
    es.len() <= caps.in_max as usize
}

fn compares(caps: Caps, op: CmpOp) -> bool
    ensures { result ≡ spec.compares caps op }
{
    match op {
        CmpOp::Eq => caps.equals,
        CmpOp::Ne => caps.equals && caps.not,
        CmpOp::Lt | CmpOp::Le | CmpOp::Gt | CmpOp::Ge => caps.ordered,
    }
}

fn is_equality(op: CmpOp) -> bool
    ensures { result ≡ spec.is_equality op }
{
    match op {
        CmpOp::Eq => true,
        CmpOp::Ne | CmpOp::Lt | CmpOp::Le | CmpOp::Gt | CmpOp::Ge => false,
    }
}

/// Whether two columns are of one table.
fn together(scope: Scope<'_>, a: u32, b: u32) -> bool
    ensures { result ≡ spec.together (widths_of scope.entry.defs.now scope.entry.tables.now) a b }
{
    let mut a = a as usize;
    let mut b = b as usize;
    for table in scope.tables {
        let width = width_of(scope.defs, *table);
        if a < width {
            return b < width;
        }
        if b < width {
            return false;
        }
        a -= width;
        b -= width;
    }
    true
}

fn far(scope: Scope<'_>, a: Option<u32>, b: Option<u32>) -> bool
    ensures { result ≡ spec.far (widths_of scope.entry.defs.now scope.entry.tables.now) a b }
{
    match (a, b) {
        (Some(a), Some(b)) => !together(scope, a, b),
        (Some(_), None) => false,
        (None, _) => false,
    }
}

#[cycle(allowed)]
#[tactic(auto, using(crate::proofs::CanRules::form_rules))]
fn allowed(e: &Expr, caps: Caps, scope: Scope<'_>) -> bool
    ensures { result ≡ spec.allowed caps (widths_of scope.entry.defs.now scope.entry.tables.now) e.now }
{
    match e {
        Expr::Not(e) => caps.not && allowed(e.get(), caps, scope),
        Expr::And(es) => {
            any_form(es.as_slice(), caps, scope) && all_allowed(es.as_slice(), caps, scope)
        }
        Expr::Or(es) => {
            caps.or
                && any_form(es.as_slice(), caps, scope)
                && all_allowed(es.as_slice(), caps, scope)
        }
        Expr::Cmp(op, a, b) => {
            (is_column(a.get(), caps, scope)
                && good_constant(b.get(), caps, scope)
                && compares(caps, *op))
                || (is_equality(*op)
                    && caps.joins
                    && far(
                        scope,
                        column(a.get(), caps, scope),
                        column(b.get(), caps, scope),
                    ))
        }
        Expr::IsNull(e) => is_column(e.get(), caps, scope) && caps.is_null,
        Expr::In(e, es) => {
            is_column(e.get(), caps, scope)
                && any_form(es.as_slice(), caps, scope)
                && fits_in(es.as_slice(), caps, scope)
                && all_constants(es.as_slice(), caps, scope)
        }
        Expr::Like(e, _) => is_column(e.get(), caps, scope) && caps.like,
        Expr::Col(_)
        | Expr::Var(_)
        | Expr::Const(_)
        | Expr::Arith(_, _, _)
        | Expr::Neg(_)
        | Expr::Concat(_)
        | Expr::Case(_, _)
        | Expr::Coalesce(_) => false,
    }
}

#[cycle(allowed)]
fn all_allowed(es: &[Expr], caps: Caps, scope: Scope<'_>) -> bool
    ensures { result ≡ spec.all_allowed (forms caps (widths_of scope.entry.defs.now scope.entry.tables.now) es.now) }
{
    for e in es {
        if !allowed(e, caps, scope) {
            return false;
        }
    }
    true
}

fn all_criteria(filter: &[Expr], caps: Caps, scope: Scope<'_>) -> bool
    ensures { result ≡ spec.all_criteria caps (widths_of scope.entry.defs.now scope.entry.tables.now) filter.now }
{
    for e in filter {
        if !allowed(e, caps, scope) {
            return false;
        }
    }
    true
}

fn all_defined(defs: &[TableDef], tables: &[u32]) -> bool
    ensures { result ≡ spec.all_defined defs.now tables.now }
{
    for table in tables {
        if !is_defined(defs, *table) {
            return false;
        }
    }
    true
}

fn all_served(defs: &[TableDef], server: u32, tables: &[u32]) -> bool
    ensures { result ≡ spec.all_served defs.now server tables.now }
{
    for table in tables {
        if server_of(defs, *table) != server {
            return false;
        }
    }
    true
}

fn of_one_server(defs: &[TableDef], tables: &[u32]) -> bool
    ensures { result ≡ spec.of_one_server defs.now tables.now }
{
    match tables {
        [] => true,
        [first, others @ ..] => all_served(defs, server_of(defs, *first), others),
    }
}

/// Whether a column is one of the tables'.
#[tactic(auto, using(crate::proofs::CanRules::below_sum))]
fn is_there(scope: Scope<'_>, column: u32) -> bool
    ensures { result ≡ nat_lt column (sum (widths_of scope.entry.defs.now scope.entry.tables.now)) }
{
    let mut column = column as usize;
    for table in scope.tables {
        let width = width_of(scope.defs, *table);
        if column < width {
            return true;
        }
        column -= width;
    }
    false
}

fn all_there(scope: Scope<'_>, columns: &[u32]) -> bool
    ensures { result ≡ all_below (sum (widths_of scope.entry.defs.now scope.entry.tables.now)) columns.now }
{
    for column in columns {
        if !is_there(scope, *column) {
            return false;
        }
    }
    true
}

fn all_asked(columns: &[u32], order: &[Key]) -> bool
    ensures { result ≡ spec.all_asked columns.now order.now }
{
    for key in order {
        if !columns.contains(&key.column) {
            return false;
        }
    }
    true
}

fn is_count_alone(q: &SourceQuery) -> bool
    ensures { result ≡ spec.is_count_alone q.now }
{
    q.tables.len() == 1
        && q.columns.is_empty()
        && !q.distinct
        && q.order.is_empty()
        && q.limit.is_none()
}

fn joins_allowed(caps: Caps, q: &SourceQuery) -> bool
    ensures { result ≡ spec.joins_allowed caps q.now }
{
    q.tables.len() < 2 || caps.joins
}

fn order_allowed(caps: Caps, q: &SourceQuery) -> bool
    ensures { result ≡ spec.order_allowed caps q.now }
{
    q.order.is_empty() || (caps.order && all_asked(q.columns.as_slice(), q.order.as_slice()))
}

fn count_allowed(caps: Caps, q: &SourceQuery) -> bool
    ensures { result ≡ spec.count_allowed caps q.now }
{
    !q.count || (caps.count_star && is_count_alone(q))
}

fn shape_allowed(caps: Caps, q: &SourceQuery) -> bool
    ensures { result ≡ spec.shape_allowed caps q.now }
{
    joins_allowed(caps, q)
        && (!q.distinct || caps.distinct)
        && order_allowed(caps, q)
        && (q.limit.is_none() || caps.limit)
        && count_allowed(caps, q)
}

fn names_known(q: &SourceQuery, scope: Scope<'_>) -> bool
    ensures { scope.entry.tables.now ≡ q.now.tables → result ≡ spec.names_known scope.entry.defs.now q.now }
{
    !scope.tables.is_empty()
        && all_defined(scope.defs, scope.tables)
        && of_one_server(scope.defs, scope.tables)
        && all_there(scope, q.columns.as_slice())
}

impl Caps {
    /// Whether a source of these capabilities can be sent the query, over the definitions of its tables. It takes no
    /// memory.
    pub fn can(&self, q: &SourceQuery, defs: &TableDefs) -> bool
        ensures { result ≡ spec.can self.now defs.now q.now }
    {
        let scope = Scope {
            tables: q.tables.as_slice(),
            defs: defs.as_slice(),
        };
        names_known(q, scope)
            && all_criteria(q.filter.as_slice(), *self, scope)
            && shape_allowed(*self, q)
    }
}
