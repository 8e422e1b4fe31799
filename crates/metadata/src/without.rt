//! Capabilities that a server does without.

ghost use Rattle.std.specs.Prelude.{◌≡◌, codes, is_some};
ghost use Rattle.std.specs.List.{list_all};
ghost use Rattle.metadata.specs.Options as spec;

use sql_reader::tree::Constant;
use vdb_base::{Text, Value};
use vdb_model::Caps;

fn is_capability(name: &str) -> bool
    ensures { result ≡ spec.is_in spec.capabilities name.now }
{
    name == "CompareCriteriaEquals"
        || name == "CompareCriteriaOrdered"
        || name == "InCriteria"
        || name == "IsNullCriteria"
        || name == "LikeCriteria"
        || name == "OrCriteria"
        || name == "NotCriteria"
        || name == "InnerJoins"
        || name == "SelectDistinct"
        || name == "OrderBy"
        || name == "RowLimit"
        || name == "AggregatesCountStar"
        || name == "WideConstants"
}

fn are_capabilities(list: &str) -> bool
    ensures { result ≡ list_all (spec.is_in spec.capabilities) (spec.between_commas list.now) }
{
    list.split(',').all(|name| is_capability(name))
}

/// Whether a name stands between the commas of a text.
fn lists(list: &str, name: &str) -> bool
    ensures { result ≡ spec.is_in (spec.between_commas list.now) name.now }
{
    list.split(',').any(|other| name == other)
}

/// Whether a capability is kept.
fn keeps(list: &str, name: &str, can: bool) -> bool
    ensures { result ≡ spec.keeps (spec.between_commas list.now) name.now can }
{
    can && !lists(list, name)
}

/// How many constants an IN may have then.
fn kept_in_max(list: &str, in_max: u32) -> u32
    ensures { result ≡ spec.keeps_in_max (spec.between_commas list.now) in_max }
{
    if lists(list, "InCriteria") { 0 } else { in_max }
}

/// Capabilities without those of the text.
fn without(list: &str, caps: Caps) -> Caps
    ensures { result ≡ spec.without (spec.between_commas list.now) caps }
{
    Caps {
        equals: keeps(list, "CompareCriteriaEquals", caps.equals),
        ordered: keeps(list, "CompareCriteriaOrdered", caps.ordered),
        in_max: kept_in_max(list, caps.in_max),
        is_null: keeps(list, "IsNullCriteria", caps.is_null),
        like: keeps(list, "LikeCriteria", caps.like),
        or: keeps(list, "OrCriteria", caps.or),
        not: keeps(list, "NotCriteria", caps.not),
        joins: keeps(list, "InnerJoins", caps.joins),
        distinct: keeps(list, "SelectDistinct", caps.distinct),
        order: keeps(list, "OrderBy", caps.order),
        limit: keeps(list, "RowLimit", caps.limit),
        count_star: keeps(list, "AggregatesCountStar", caps.count_star),
        wide: keeps(list, "WideConstants", caps.wide),
        writes: caps.writes,
    }
}

/// Whether a constant lists capabilities.
pub(crate) fn lists_capabilities(constant: &Constant) -> bool
    ensures { result ≡ is_some (spec.without_of constant.now) }
{
    match constant {
        Constant::Value(Value::Null) => false,
        Constant::Value(Value::Bool(_)) => false,
        Constant::Value(Value::Num(_)) => false,
        Constant::Value(Value::Str(text)) => are_capabilities(text.as_str()),
        Constant::Fraction => false,
        Constant::TooLong => false,
    }
}

fn narrowed_by_list(list: &str, caps: Caps) -> Caps
    ensures { result ≡ spec.without_said caps (spec.listed_names list.now) }
{
    if are_capabilities(list) {
        without(list, caps)
    } else {
        caps
    }
}

/// Capabilities without those that a constant lists.
pub(crate) fn narrowed_by(caps: Caps, constant: &Constant) -> Caps
    ensures { result ≡ spec.narrowed_by caps constant.now }
{
    match constant {
        Constant::Value(Value::Null) => caps,
        Constant::Value(Value::Bool(_)) => caps,
        Constant::Value(Value::Num(_)) => caps,
        Constant::Value(Value::Str(text)) => narrowed_by_list(text.as_str(), caps),
        Constant::Fraction => caps,
        Constant::TooLong => caps,
    }
}
