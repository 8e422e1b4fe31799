//! The table of the grammar of statements. It is written by `tools/table.py`, and is that of `specs/Table`.

ghost use Rattle.std.specs.Prelude.{◌≡◌, ◌++◌, IfOk};
ghost use Rattle.grammar.specs.Table.{shapes};
ghost use Rattle.sql_reader.specs.Table as spec;

use crate::symbols::*;
use grammar::{Item, Place, Rule};
use std::alloc::Global;
use vdb_base::NoMemory;

macro_rules! same { ($symbol:expr) => { Item { symbol: $symbol, place: Place::Same } }; }

macro_rules! deeper { ($symbol:expr) => { Item { symbol: $symbol, place: Place::Deeper } }; }

macro_rules! first { ($symbol:expr) => { Item { symbol: $symbol, place: Place::First } }; }

macro_rules! next { ($symbol:expr) => { Item { symbol: $symbol, place: Place::Next } }; }

/// How many rules there are.
const RULE_COUNT: usize = 167;

/// The tokens, and the guards.
static TOKENS: [Rule<'static>; 82] = [
    Rule::Token(&[ALL]),
    Rule::Token(&[AND]),
    Rule::Token(&[AS]),
    Rule::Token(&[ASC]),
    Rule::Token(&[BEGIN]),
    Rule::Token(&[BETWEEN]),
    Rule::Token(&[BY]),
    Rule::Token(&[CASE]),
    Rule::Token(&[COALESCE]),
    Rule::Token(&[COMMIT]),
    Rule::Token(&[COUNT]),
    Rule::Token(&[CREATE]),
    Rule::Token(&[CROSS]),
    Rule::Token(&[DECLARE]),
    Rule::Token(&[DELETE]),
    Rule::Token(&[DESC]),
    Rule::Token(&[DISTINCT]),
    Rule::Token(&[ELSE]),
    Rule::Token(&[END]),
    Rule::Token(&[EXEC]),
    Rule::Token(&[EXPLAIN]),
    Rule::Token(&[FALSE]),
    Rule::Token(&[FROM]),
    Rule::Token(&[GROUP]),
    Rule::Token(&[HAVING]),
    Rule::Token(&[IF]),
    Rule::Token(&[IN]),
    Rule::Token(&[INNER]),
    Rule::Token(&[INSERT]),
    Rule::Token(&[INTO]),
    Rule::Token(&[IS]),
    Rule::Token(&[JOIN]),
    Rule::Token(&[LEFT]),
    Rule::Token(&[LIKE]),
    Rule::Token(&[LIMIT]),
    Rule::Token(&[LOOP]),
    Rule::Token(&[MAX]),
    Rule::Token(&[MIN]),
    Rule::Token(&[NOT]),
    Rule::Token(&[NULL]),
    Rule::Token(&[OFFSET]),
    Rule::Token(&[ON]),
    Rule::Token(&[OR]),
    Rule::Token(&[ORDER]),
    Rule::Token(&[OUTER]),
    Rule::Token(&[RAISE]),
    Rule::Token(&[ROLLBACK]),
    Rule::Token(&[SELECT]),
    Rule::Token(&[SET]),
    Rule::Token(&[START]),
    Rule::Token(&[SUM]),
    Rule::Token(&[THEN]),
    Rule::Token(&[TRUE]),
    Rule::Token(&[UNION]),
    Rule::Token(&[UPDATE]),
    Rule::Token(&[VALUES]),
    Rule::Token(&[WHEN]),
    Rule::Token(&[WHERE]),
    Rule::Token(&[WHILE]),
    Rule::Token(&[TRANSACTION_WORD]),
    Rule::Token(&[
        NAME,
        TRANSACTION_WORD,
        ATOMIC_WORD,
        SQLEXCEPTION_WORD,
        ACCESSPATTERN_WORD,
        CONSTRAINT_WORD,
        DATA_WORD,
        DATABASE_WORD,
        EACH_WORD,
        FOR_WORD,
        FOREIGN_WORD,
        INSTEAD_WORD,
        KEY_WORD,
        OF_WORD,
        OPTIONS_WORD,
        PRIMARY_WORD,
        PROCEDURE_WORD,
        RETURNS_WORD,
        ROW_WORD,
        SCHEMA_WORD,
        SERVER_WORD,
        TABLE_WORD,
        TRIGGER_WORD,
        TYPE_WORD,
        USE_WORD,
        VERSION_WORD,
        VIEW_WORD,
        VIRTUAL_WORD,
        WRAPPER_WORD,
    ]),
    Rule::Token(&[NUMERAL]),
    Rule::Token(&[FRACTION]),
    Rule::Token(&[STRING]),
    Rule::Token(&[OPEN]),
    Rule::Token(&[CLOSE]),
    Rule::Token(&[COMMA]),
    Rule::Token(&[DOT]),
    Rule::Token(&[SEMICOLON]),
    Rule::Token(&[EQUAL]),
    Rule::Token(&[NOT_EQUAL]),
    Rule::Token(&[LESS]),
    Rule::Token(&[AT_MOST]),
    Rule::Token(&[GREATER]),
    Rule::Token(&[AT_LEAST]),
    Rule::Token(&[PLUS]),
    Rule::Token(&[MINUS]),
    Rule::Token(&[TIMES]),
    Rule::Token(&[BARS]),
    Rule::Token(&[NUMERAL, FRACTION, STRING, TRUE, FALSE, NULL]),
    Rule::Unless(&[
        NAME,
        TRANSACTION_WORD,
        ATOMIC_WORD,
        SQLEXCEPTION_WORD,
        ACCESSPATTERN_WORD,
        CONSTRAINT_WORD,
        DATA_WORD,
        DATABASE_WORD,
        EACH_WORD,
        FOR_WORD,
        FOREIGN_WORD,
        INSTEAD_WORD,
        KEY_WORD,
        OF_WORD,
        OPTIONS_WORD,
        PRIMARY_WORD,
        PROCEDURE_WORD,
        RETURNS_WORD,
        ROW_WORD,
        SCHEMA_WORD,
        SERVER_WORD,
        TABLE_WORD,
        TRIGGER_WORD,
        TYPE_WORD,
        USE_WORD,
        VERSION_WORD,
        VIEW_WORD,
        VIRTUAL_WORD,
        WRAPPER_WORD,
    ]),
    Rule::Unless(&[NUMERAL]),
];

/// The tokens, and the guards.
fn tokens() -> &'static [Rule<'static>]
    ensures { shapes result.now ≡ spec.tokens }
{
    &TOKENS
}

/// The rules of queries.
static QUERIES: [Rule<'static>; 37] = [
    // set_only
    Rule::Choice {
        weight: 3,
        solid: true,
        rank: 4,
        alternatives: &[&[same!(SET_QUERY_RULE), same!(QUERY_ACTION)]],
    },
    // query
    Rule::Choice {
        weight: 3,
        solid: true,
        rank: 4,
        alternatives: &[&[
            same!(SET_QUERY_RULE),
            same!(QUERY_ACTION),
            same!(ORDER_PART_RULE),
            same!(LIMIT_PART_RULE),
            same!(OFFSET_PART_RULE),
        ]],
    },
    // order_part
    Rule::Choice {
        weight: 1,
        solid: false,
        rank: 1,
        alternatives: &[
            &[
                same!(ORDER),
                same!(BY),
                same!(KEY_RULE),
                same!(KEYS_REST_RULE),
            ],
            &[],
        ],
    },
    // keys_rest
    Rule::Choice {
        weight: 1,
        solid: false,
        rank: 1,
        alternatives: &[&[same!(COMMA), same!(KEY_RULE), same!(KEYS_REST_RULE)], &[]],
    },
    // key
    Rule::Choice {
        weight: 1,
        solid: true,
        rank: 2,
        alternatives: &[
            &[same!(NAME), same!(NAME_ACTION), same!(NAME_DIRECTION_RULE)],
            &[
                same!(NUMERAL),
                same!(LITERAL_ACTION),
                same!(NUMBER_DIRECTION_RULE),
            ],
        ],
    },
    // name_direction
    Rule::Choice {
        weight: 2,
        solid: false,
        rank: 1,
        alternatives: &[
            &[same!(KEY_NAME_ACTION)],
            &[same!(ASC), same!(KEY_NAME_ACTION)],
            &[same!(DESC), same!(KEY_NAME_DOWN_ACTION)],
        ],
    },
    // number_direction
    Rule::Choice {
        weight: 2,
        solid: false,
        rank: 1,
        alternatives: &[
            &[same!(KEY_NUMBER_ACTION)],
            &[same!(ASC), same!(KEY_NUMBER_ACTION)],
            &[same!(DESC), same!(KEY_NUMBER_DOWN_ACTION)],
        ],
    },
    // limit_part
    Rule::Choice {
        weight: 1,
        solid: false,
        rank: 1,
        alternatives: &[
            &[
                same!(LIMIT),
                same!(NUMERAL),
                same!(LITERAL_ACTION),
                same!(LIMIT_ACTION),
            ],
            &[],
        ],
    },
    // offset_part
    Rule::Choice {
        weight: 1,
        solid: false,
        rank: 1,
        alternatives: &[
            &[
                same!(OFFSET),
                same!(NUMERAL),
                same!(LITERAL_ACTION),
                same!(OFFSET_ACTION),
            ],
            &[],
        ],
    },
    // set_query
    Rule::Choice {
        weight: 2,
        solid: true,
        rank: 3,
        alternatives: &[&[
            first!(SELECT_RULE),
            same!(SELECTS_ACTION),
            first!(UNIONS_RULE),
        ]],
    },
    // unions
    Rule::Choice {
        weight: 1,
        solid: false,
        rank: 1,
        alternatives: &[&[same!(UNION), same!(UNION_END_RULE)], &[]],
    },
    // union_end
    Rule::Choice {
        weight: 2,
        solid: true,
        rank: 3,
        alternatives: &[
            &[next!(SELECT_RULE), same!(UNION_ACTION), next!(UNIONS_RULE)],
            &[
                same!(ALL),
                next!(SELECT_RULE),
                same!(UNION_ALL_ACTION),
                next!(UNIONS_RULE),
            ],
        ],
    },
    // select
    Rule::Choice {
        weight: 1,
        solid: true,
        rank: 2,
        alternatives: &[&[
            same!(SELECT),
            same!(SELECT_ACTION),
            same!(DISTINCT_PART_RULE),
            same!(ITEMS_RULE),
            same!(FROM_PART_RULE),
            same!(WHERE_PART_RULE),
            same!(GROUP_PART_RULE),
            same!(HAVING_PART_RULE),
        ]],
    },
    // distinct_part
    Rule::Choice {
        weight: 1,
        solid: false,
        rank: 1,
        alternatives: &[&[same!(DISTINCT), same!(DISTINCT_ACTION)], &[]],
    },
    // items
    Rule::Choice {
        weight: 13,
        solid: true,
        rank: 1,
        alternatives: &[
            &[same!(TIMES), same!(ALL_ACTION)],
            &[same!(ITEM_RULE), same!(ITEMS_REST_RULE)],
        ],
    },
    // items_rest
    Rule::Choice {
        weight: 1,
        solid: false,
        rank: 1,
        alternatives: &[
            &[same!(COMMA), same!(ITEM_RULE), same!(ITEMS_REST_RULE)],
            &[],
        ],
    },
    // item
    Rule::Choice {
        weight: 12,
        solid: true,
        rank: 3,
        alternatives: &[
            &[same!(NAME), same!(NAME_ACTION), same!(NAME_ITEM_RULE)],
            &[same!(NO_NAME), same!(E_RULE), same!(ITEM_END_RULE)],
        ],
    },
    // name_item
    Rule::Choice {
        weight: 22,
        solid: false,
        rank: 2,
        alternatives: &[
            &[same!(DOT), same!(DOT_ITEM_RULE)],
            &[
                same!(PLAIN_ACTION),
                same!(OPERAND_ACTION),
                same!(AFTER_OPERAND_RULE),
                same!(ITEM_END_RULE),
            ],
        ],
    },
    // dot_item
    Rule::Choice {
        weight: 1,
        solid: true,
        rank: 1,
        alternatives: &[
            &[same!(TIMES), same!(ALL_OF_ACTION)],
            &[
                same!(NAME),
                same!(NAME_ACTION),
                same!(COLUMN_LAST_RULE),
                same!(OPERAND_ACTION),
                same!(AFTER_OPERAND_RULE),
                same!(ITEM_END_RULE),
            ],
        ],
    },
    // item_end
    Rule::Choice {
        weight: 2,
        solid: false,
        rank: 1,
        alternatives: &[
            &[
                same!(AS),
                same!(NAME),
                same!(NAME_ACTION),
                same!(ITEM_AS_ACTION),
            ],
            &[same!(NAME), same!(NAME_ACTION), same!(ITEM_AS_ACTION)],
            &[same!(ITEM_ACTION)],
        ],
    },
    // from_part
    Rule::Choice {
        weight: 1,
        solid: false,
        rank: 1,
        alternatives: &[
            &[same!(FROM), first!(TABLE_RULE), first!(FROM_REST_RULE)],
            &[],
        ],
    },
    // from_rest
    Rule::Choice {
        weight: 2,
        solid: false,
        rank: 1,
        alternatives: &[
            &[
                same!(COMMA),
                same!(FROM_ACTION),
                next!(TABLE_RULE),
                next!(FROM_REST_RULE),
            ],
            &[
                same!(INNER_JOIN_RULE),
                next!(TABLE_RULE),
                same!(ON),
                same!(E_RULE),
                same!(INNER_ACTION),
                next!(FROM_REST_RULE),
            ],
            &[
                same!(LEFT_JOIN_RULE),
                next!(TABLE_RULE),
                same!(ON),
                same!(E_RULE),
                same!(LEFT_ACTION),
                next!(FROM_REST_RULE),
            ],
            &[
                same!(CROSS),
                same!(JOIN),
                next!(TABLE_RULE),
                same!(CROSS_ACTION),
                next!(FROM_REST_RULE),
            ],
            &[same!(FROM_ACTION)],
        ],
    },
    // inner_join
    Rule::Choice {
        weight: 1,
        solid: true,
        rank: 1,
        alternatives: &[&[same!(JOIN)], &[same!(INNER), same!(JOIN)]],
    },
    // left_join
    Rule::Choice {
        weight: 1,
        solid: true,
        rank: 2,
        alternatives: &[&[same!(LEFT), same!(OUTER_PART_RULE), same!(JOIN)]],
    },
    // outer_part
    Rule::Choice {
        weight: 1,
        solid: false,
        rank: 1,
        alternatives: &[&[same!(OUTER)], &[]],
    },
    // table
    Rule::Choice {
        weight: 2,
        solid: true,
        rank: 3,
        alternatives: &[
            &[same!(RELATION_RULE), same!(TABLE_END_RULE)],
            &[
                deeper!(OPEN),
                deeper!(SET_QUERY_RULE),
                deeper!(CLOSE),
                same!(OPTIONAL_AS_RULE),
                same!(NAME),
                same!(NAME_ACTION),
                same!(DERIVED_ACTION),
            ],
        ],
    },
    // table_end
    Rule::Choice {
        weight: 2,
        solid: false,
        rank: 1,
        alternatives: &[
            &[
                same!(AS),
                same!(NAME),
                same!(NAME_ACTION),
                same!(TABLE_AS_ACTION),
            ],
            &[same!(NAME), same!(NAME_ACTION), same!(TABLE_AS_ACTION)],
            &[same!(TABLE_ACTION)],
        ],
    },
    // optional_as
    Rule::Choice {
        weight: 1,
        solid: false,
        rank: 1,
        alternatives: &[&[same!(AS)], &[]],
    },
    // relation
    Rule::Choice {
        weight: 1,
        solid: true,
        rank: 2,
        alternatives: &[&[same!(NAME), same!(NAME_ACTION), same!(RELATION_END_RULE)]],
    },
    // relation_end
    Rule::Choice {
        weight: 2,
        solid: false,
        rank: 1,
        alternatives: &[
            &[
                same!(DOT),
                same!(NAME),
                same!(NAME_ACTION),
                same!(RELATION_OF_ACTION),
            ],
            &[same!(RELATION_ACTION)],
        ],
    },
    // where_part
    Rule::Choice {
        weight: 1,
        solid: false,
        rank: 1,
        alternatives: &[&[same!(WHERE), same!(E_RULE), same!(WHERE_ACTION)], &[]],
    },
    // group_part
    Rule::Choice {
        weight: 1,
        solid: false,
        rank: 1,
        alternatives: &[
            &[
                same!(GROUP),
                same!(BY),
                same!(COLUMN_RULE),
                same!(GROUP_KEY_ACTION),
                same!(GROUP_REST_RULE),
            ],
            &[],
        ],
    },
    // group_rest
    Rule::Choice {
        weight: 1,
        solid: false,
        rank: 1,
        alternatives: &[
            &[
                same!(COMMA),
                same!(COLUMN_RULE),
                same!(GROUP_KEY_ACTION),
                same!(GROUP_REST_RULE),
            ],
            &[],
        ],
    },
    // having_part
    Rule::Choice {
        weight: 1,
        solid: false,
        rank: 1,
        alternatives: &[&[same!(HAVING), same!(E_RULE), same!(HAVING_ACTION)], &[]],
    },
    // column
    Rule::Choice {
        weight: 1,
        solid: true,
        rank: 2,
        alternatives: &[&[same!(NAME), same!(NAME_ACTION), same!(COLUMN_END_RULE)]],
    },
    // column_end
    Rule::Choice {
        weight: 2,
        solid: false,
        rank: 1,
        alternatives: &[
            &[
                same!(DOT),
                same!(NAME),
                same!(NAME_ACTION),
                same!(COLUMN_LAST_RULE),
            ],
            &[same!(PLAIN_ACTION)],
        ],
    },
    // column_last
    Rule::Choice {
        weight: 2,
        solid: false,
        rank: 1,
        alternatives: &[
            &[
                same!(DOT),
                same!(NAME),
                same!(NAME_ACTION),
                same!(IN_SCHEMA_ACTION),
            ],
            &[same!(OF_ACTION)],
        ],
    },
];

/// The rules of queries.
fn queries() -> &'static [Rule<'static>]
    ensures { shapes result.now ≡ spec.queries }
{
    &QUERIES
}

/// The rules of statements.
static STATEMENTS: [Rule<'static>; 13] = [
    // statement
    Rule::Choice {
        weight: 4,
        solid: true,
        rank: 1,
        alternatives: &[
            &[same!(QUERY_RULE), same!(RUN_ACTION)],
            &[same!(EXPLAIN), same!(QUERY_RULE), same!(EXPLAIN_ACTION)],
            &[same!(INSERT_RULE)],
            &[same!(UPDATE_RULE)],
            &[same!(DELETE_RULE)],
            &[same!(EXEC_RULE)],
            &[same!(START), same!(TRANSACTION), same!(START_ACTION)],
            &[same!(COMMIT), same!(COMMIT_ACTION)],
            &[same!(ROLLBACK), same!(ROLLBACK_ACTION)],
        ],
    },
    // insert
    Rule::Choice {
        weight: 1,
        solid: true,
        rank: 5,
        alternatives: &[&[
            same!(INSERT),
            same!(INTO),
            same!(RELATION_RULE),
            same!(NAMES_ACTION),
            same!(COLUMNS_PART_RULE),
            same!(INSERT_SOURCE_RULE),
        ]],
    },
    // columns_part
    Rule::Choice {
        weight: 1,
        solid: false,
        rank: 1,
        alternatives: &[
            &[
                deeper!(OPEN),
                deeper!(NAME),
                deeper!(NAME_ACTION),
                deeper!(ADD_NAME_ACTION),
                deeper!(NAMES_REST_RULE),
                deeper!(CLOSE),
            ],
            &[],
        ],
    },
    // names_rest
    Rule::Choice {
        weight: 1,
        solid: false,
        rank: 1,
        alternatives: &[
            &[
                same!(COMMA),
                same!(NAME),
                same!(NAME_ACTION),
                same!(ADD_NAME_ACTION),
                same!(NAMES_REST_RULE),
            ],
            &[],
        ],
    },
    // insert_source
    Rule::Choice {
        weight: 3,
        solid: true,
        rank: 4,
        alternatives: &[
            &[
                same!(VALUES),
                deeper!(OPEN),
                deeper!(LIST_RULE),
                deeper!(CLOSE),
                same!(INSERT_VALUES_ACTION),
            ],
            &[same!(SET_QUERY_RULE), same!(INSERT_QUERY_ACTION)],
        ],
    },
    // update
    Rule::Choice {
        weight: 1,
        solid: true,
        rank: 11,
        alternatives: &[&[
            same!(UPDATE),
            same!(RELATION_RULE),
            same!(SET),
            same!(ASSIGNMENTS_ACTION),
            same!(ASSIGNMENT_RULE),
            same!(ASSIGNMENTS_REST_RULE),
            same!(UPDATE_END_RULE),
        ]],
    },
    // assignment
    Rule::Choice {
        weight: 1,
        solid: true,
        rank: 10,
        alternatives: &[&[
            same!(NAME),
            same!(NAME_ACTION),
            same!(EQUAL),
            same!(E_RULE),
            same!(ASSIGN_ACTION),
        ]],
    },
    // assignments_rest
    Rule::Choice {
        weight: 1,
        solid: false,
        rank: 1,
        alternatives: &[
            &[
                same!(COMMA),
                same!(ASSIGNMENT_RULE),
                same!(ASSIGNMENTS_REST_RULE),
            ],
            &[],
        ],
    },
    // update_end
    Rule::Choice {
        weight: 2,
        solid: false,
        rank: 1,
        alternatives: &[
            &[same!(WHERE), same!(E_RULE), same!(UPDATE_WHERE_ACTION)],
            &[same!(UPDATE_ACTION)],
        ],
    },
    // delete
    Rule::Choice {
        weight: 1,
        solid: true,
        rank: 3,
        alternatives: &[&[
            same!(DELETE),
            same!(FROM),
            same!(RELATION_RULE),
            same!(DELETE_END_RULE),
        ]],
    },
    // delete_end
    Rule::Choice {
        weight: 2,
        solid: false,
        rank: 1,
        alternatives: &[
            &[same!(WHERE), same!(E_RULE), same!(DELETE_WHERE_ACTION)],
            &[same!(DELETE_ACTION)],
        ],
    },
    // exec
    Rule::Choice {
        weight: 1,
        solid: true,
        rank: 3,
        alternatives: &[&[
            same!(EXEC),
            same!(RELATION_RULE),
            deeper!(OPEN),
            deeper!(ARGUMENTS_RULE),
            deeper!(CLOSE),
            same!(EXEC_ACTION),
        ]],
    },
    // arguments
    Rule::Choice {
        weight: 13,
        solid: false,
        rank: 1,
        alternatives: &[&[same!(LIST_RULE)], &[same!(LIST_ACTION)]],
    },
];

/// The rules of statements.
fn statements() -> &'static [Rule<'static>]
    ensures { shapes result.now ≡ spec.statements }
{
    &STATEMENTS
}

/// The rules of expressions.
static EXPRESSIONS: [Rule<'static>; 35] = [
    // list
    Rule::Choice {
        weight: 12,
        solid: true,
        rank: 10,
        alternatives: &[&[
            same!(LIST_ACTION),
            same!(E_RULE),
            same!(ADD_ACTION),
            same!(LIST_REST_RULE),
        ]],
    },
    // list_rest
    Rule::Choice {
        weight: 1,
        solid: false,
        rank: 1,
        alternatives: &[
            &[
                same!(COMMA),
                same!(E_RULE),
                same!(ADD_ACTION),
                same!(LIST_REST_RULE),
            ],
            &[],
        ],
    },
    // e
    Rule::Choice {
        weight: 10,
        solid: true,
        rank: 9,
        alternatives: &[&[same!(CONJUNCTION_RULE), same!(OR_TAIL_RULE)]],
    },
    // or_tail
    Rule::Choice {
        weight: 3,
        solid: false,
        rank: 1,
        alternatives: &[
            &[
                same!(LINKS_ACTION),
                same!(OR_LINK_RULE),
                same!(CHAIN_ACTION),
            ],
            &[],
        ],
    },
    // or_link
    Rule::Choice {
        weight: 1,
        solid: true,
        rank: 9,
        alternatives: &[&[
            same!(OR),
            same!(PLACE_ACTION),
            same!(CONJUNCTION_RULE),
            same!(OR_ACTION),
            same!(OR_REST_RULE),
        ]],
    },
    // or_rest
    Rule::Choice {
        weight: 2,
        solid: false,
        rank: 1,
        alternatives: &[&[same!(OR_LINK_RULE)], &[]],
    },
    // conjunction
    Rule::Choice {
        weight: 9,
        solid: true,
        rank: 8,
        alternatives: &[&[same!(NEGATION_RULE), same!(AND_TAIL_RULE)]],
    },
    // and_tail
    Rule::Choice {
        weight: 3,
        solid: false,
        rank: 1,
        alternatives: &[
            &[
                same!(LINKS_ACTION),
                same!(AND_LINK_RULE),
                same!(CHAIN_ACTION),
            ],
            &[],
        ],
    },
    // and_link
    Rule::Choice {
        weight: 1,
        solid: true,
        rank: 8,
        alternatives: &[&[
            same!(AND),
            same!(PLACE_ACTION),
            same!(NEGATION_RULE),
            same!(AND_ACTION),
            same!(AND_REST_RULE),
        ]],
    },
    // and_rest
    Rule::Choice {
        weight: 2,
        solid: false,
        rank: 1,
        alternatives: &[&[same!(AND_LINK_RULE)], &[]],
    },
    // negation
    Rule::Choice {
        weight: 8,
        solid: true,
        rank: 7,
        alternatives: &[
            &[
                deeper!(NOT),
                deeper!(PLACE_ACTION),
                deeper!(NEGATION_RULE),
                same!(NOT_ACTION),
            ],
            &[same!(PREDICATE_RULE)],
        ],
    },
    // predicate
    Rule::Choice {
        weight: 7,
        solid: true,
        rank: 6,
        alternatives: &[&[same!(CONCAT_RULE), same!(PREDICATE_END_RULE)]],
    },
    // predicate_end
    Rule::Choice {
        weight: 1,
        solid: false,
        rank: 1,
        alternatives: &[
            &[
                same!(EQUAL),
                same!(PLACE_ACTION),
                same!(CONCAT_RULE),
                same!(EQUAL_ACTION),
            ],
            &[
                same!(NOT_EQUAL),
                same!(PLACE_ACTION),
                same!(CONCAT_RULE),
                same!(NOT_EQUAL_ACTION),
            ],
            &[
                same!(LESS),
                same!(PLACE_ACTION),
                same!(CONCAT_RULE),
                same!(LESS_ACTION),
            ],
            &[
                same!(AT_MOST),
                same!(PLACE_ACTION),
                same!(CONCAT_RULE),
                same!(AT_MOST_ACTION),
            ],
            &[
                same!(GREATER),
                same!(PLACE_ACTION),
                same!(CONCAT_RULE),
                same!(GREATER_ACTION),
            ],
            &[
                same!(AT_LEAST),
                same!(PLACE_ACTION),
                same!(CONCAT_RULE),
                same!(AT_LEAST_ACTION),
            ],
            &[same!(IS), same!(IS_END_RULE)],
            &[
                same!(IN),
                same!(PLACE_ACTION),
                deeper!(OPEN),
                deeper!(LIST_RULE),
                deeper!(CLOSE),
                same!(IN_ACTION),
            ],
            &[
                same!(LIKE),
                same!(PLACE_ACTION),
                same!(STRING),
                same!(LITERAL_ACTION),
                same!(LIKE_ACTION),
            ],
            &[
                same!(BETWEEN),
                same!(PLACE_ACTION),
                same!(CONCAT_RULE),
                same!(AND),
                same!(CONCAT_RULE),
                same!(BETWEEN_ACTION),
            ],
            &[same!(NOT), same!(NOT_END_RULE)],
            &[],
        ],
    },
    // is_end
    Rule::Choice {
        weight: 1,
        solid: true,
        rank: 1,
        alternatives: &[
            &[same!(NULL), same!(IS_NULL_ACTION)],
            &[same!(NOT), same!(NULL), same!(IS_NOT_NULL_ACTION)],
        ],
    },
    // not_end
    Rule::Choice {
        weight: 1,
        solid: true,
        rank: 1,
        alternatives: &[
            &[
                same!(IN),
                same!(PLACE_ACTION),
                deeper!(OPEN),
                deeper!(LIST_RULE),
                deeper!(CLOSE),
                same!(NOT_IN_ACTION),
            ],
            &[
                same!(LIKE),
                same!(PLACE_ACTION),
                same!(STRING),
                same!(LITERAL_ACTION),
                same!(NOT_LIKE_ACTION),
            ],
            &[
                same!(BETWEEN),
                same!(PLACE_ACTION),
                same!(CONCAT_RULE),
                same!(AND),
                same!(CONCAT_RULE),
                same!(NOT_BETWEEN_ACTION),
            ],
        ],
    },
    // concat
    Rule::Choice {
        weight: 6,
        solid: true,
        rank: 5,
        alternatives: &[&[same!(SUM_RULE), same!(CONCAT_TAIL_RULE)]],
    },
    // concat_tail
    Rule::Choice {
        weight: 3,
        solid: false,
        rank: 1,
        alternatives: &[
            &[
                same!(LINKS_ACTION),
                same!(CONCAT_LINK_RULE),
                same!(CHAIN_ACTION),
            ],
            &[],
        ],
    },
    // concat_link
    Rule::Choice {
        weight: 1,
        solid: true,
        rank: 5,
        alternatives: &[&[
            same!(BARS),
            same!(PLACE_ACTION),
            same!(SUM_RULE),
            same!(CONCAT_ACTION),
            same!(CONCAT_REST_RULE),
        ]],
    },
    // concat_rest
    Rule::Choice {
        weight: 2,
        solid: false,
        rank: 1,
        alternatives: &[&[same!(CONCAT_LINK_RULE)], &[]],
    },
    // sum
    Rule::Choice {
        weight: 5,
        solid: true,
        rank: 4,
        alternatives: &[&[same!(PRODUCT_RULE), same!(SUM_TAIL_RULE)]],
    },
    // sum_tail
    Rule::Choice {
        weight: 3,
        solid: false,
        rank: 1,
        alternatives: &[
            &[
                same!(LINKS_ACTION),
                same!(SUM_LINK_RULE),
                same!(CHAIN_ACTION),
            ],
            &[],
        ],
    },
    // sum_link
    Rule::Choice {
        weight: 1,
        solid: true,
        rank: 4,
        alternatives: &[
            &[
                same!(PLUS),
                same!(PLACE_ACTION),
                same!(PRODUCT_RULE),
                same!(PLUS_ACTION),
                same!(SUM_REST_RULE),
            ],
            &[
                same!(MINUS),
                same!(PLACE_ACTION),
                same!(PRODUCT_RULE),
                same!(MINUS_ACTION),
                same!(SUM_REST_RULE),
            ],
        ],
    },
    // sum_rest
    Rule::Choice {
        weight: 2,
        solid: false,
        rank: 1,
        alternatives: &[&[same!(SUM_LINK_RULE)], &[]],
    },
    // product
    Rule::Choice {
        weight: 4,
        solid: true,
        rank: 3,
        alternatives: &[&[same!(UNARY_RULE), same!(PRODUCT_TAIL_RULE)]],
    },
    // product_tail
    Rule::Choice {
        weight: 3,
        solid: false,
        rank: 1,
        alternatives: &[
            &[
                same!(LINKS_ACTION),
                same!(PRODUCT_LINK_RULE),
                same!(CHAIN_ACTION),
            ],
            &[],
        ],
    },
    // product_link
    Rule::Choice {
        weight: 1,
        solid: true,
        rank: 3,
        alternatives: &[&[
            same!(TIMES),
            same!(PLACE_ACTION),
            same!(UNARY_RULE),
            same!(TIMES_ACTION),
            same!(PRODUCT_REST_RULE),
        ]],
    },
    // product_rest
    Rule::Choice {
        weight: 2,
        solid: false,
        rank: 1,
        alternatives: &[&[same!(PRODUCT_LINK_RULE)], &[]],
    },
    // unary
    Rule::Choice {
        weight: 3,
        solid: true,
        rank: 2,
        alternatives: &[&[same!(MINUS), same!(MINUS_END_RULE)], &[same!(ATOM_RULE)]],
    },
    // minus_end
    Rule::Choice {
        weight: 6,
        solid: true,
        rank: 1,
        alternatives: &[
            &[
                same!(NUMERAL),
                same!(NEGATIVE_ACTION),
                same!(CONSTANT_ACTION),
            ],
            &[
                same!(PLACE_ACTION),
                same!(NO_NUMERAL),
                deeper!(UNARY_RULE),
                same!(NEGATE_ACTION),
            ],
        ],
    },
    // after_operand
    Rule::Choice {
        weight: 17,
        solid: false,
        rank: 2,
        alternatives: &[&[
            same!(PRODUCT_TAIL_RULE),
            same!(SUM_TAIL_RULE),
            same!(CONCAT_TAIL_RULE),
            same!(PREDICATE_END_RULE),
            same!(AND_TAIL_RULE),
            same!(OR_TAIL_RULE),
        ]],
    },
    // atom
    Rule::Choice {
        weight: 2,
        solid: true,
        rank: 1,
        alternatives: &[
            &[
                same!(CONSTANT),
                same!(LITERAL_ACTION),
                same!(CONSTANT_ACTION),
            ],
            &[same!(COLUMN_RULE), same!(OPERAND_ACTION)],
            &[
                deeper!(OPEN),
                deeper!(PLACE_ACTION),
                deeper!(E_RULE),
                deeper!(CLOSE),
                same!(PARENS_ACTION),
            ],
            &[
                same!(COUNT),
                same!(PLACE_ACTION),
                deeper!(OPEN),
                deeper!(COUNT_END_RULE),
            ],
            &[
                same!(SUM),
                same!(PLACE_ACTION),
                deeper!(OPEN),
                deeper!(E_RULE),
                deeper!(CLOSE),
                same!(SUM_ACTION),
            ],
            &[
                same!(MIN),
                same!(PLACE_ACTION),
                deeper!(OPEN),
                deeper!(E_RULE),
                deeper!(CLOSE),
                same!(MIN_ACTION),
            ],
            &[
                same!(MAX),
                same!(PLACE_ACTION),
                deeper!(OPEN),
                deeper!(E_RULE),
                deeper!(CLOSE),
                same!(MAX_ACTION),
            ],
            &[
                same!(COALESCE),
                same!(PLACE_ACTION),
                deeper!(OPEN),
                deeper!(LIST_RULE),
                deeper!(CLOSE),
                same!(COALESCE_ACTION),
            ],
            &[
                deeper!(CASE),
                deeper!(PLACE_ACTION),
                deeper!(ARMS_ACTION),
                deeper!(ARM_RULE),
                deeper!(ARMS_REST_RULE),
                deeper!(CASE_END_RULE),
            ],
        ],
    },
    // count_end
    Rule::Choice {
        weight: 11,
        solid: true,
        rank: 1,
        alternatives: &[
            &[same!(TIMES), same!(CLOSE), same!(COUNT_ALL_ACTION)],
            &[same!(E_RULE), same!(CLOSE), same!(COUNT_ACTION)],
        ],
    },
    // arm
    Rule::Choice {
        weight: 1,
        solid: true,
        rank: 10,
        alternatives: &[&[
            same!(WHEN),
            same!(E_RULE),
            same!(THEN),
            same!(E_RULE),
            same!(ARM_ACTION),
        ]],
    },
    // arms_rest
    Rule::Choice {
        weight: 2,
        solid: false,
        rank: 1,
        alternatives: &[&[same!(ARM_RULE), same!(ARMS_REST_RULE)], &[]],
    },
    // case_end
    Rule::Choice {
        weight: 1,
        solid: true,
        rank: 1,
        alternatives: &[
            &[same!(END), same!(CASE_ACTION)],
            &[
                same!(ELSE),
                same!(E_RULE),
                same!(END),
                same!(CASE_ELSE_ACTION),
            ],
        ],
    },
];

/// The rules of expressions.
fn expressions() -> &'static [Rule<'static>]
    ensures { shapes result.now ≡ spec.expressions }
{
    &EXPRESSIONS
}

/// The rules of a table, and further ones behind them.
#[tactic(auto, using(grammar::proofs::Tables::shapes_join))]
pub fn extended(
    rules: Vec<Rule<'static>>,
    more: &[Rule<'static>],
) -> Result<Vec<Rule<'static>>, NoMemory>
    ensures { IfOk result (λ longer. shapes longer.items ≡ shapes rules.entry.items ++ shapes more.now) }
{
    let mut rules = rules;
    rules.extend_from_slice(more)?;
    Ok(rules)
}

/// The rule of each symbol, by its number. It is copied, so that a larger grammar can go on with rules of its own.
pub fn rules(alloc: Global) -> Result<Vec<Rule<'static>>, NoMemory>
    ensures { IfOk result (λ rules. shapes rules.items ≡ spec.table) }
{
    let rules = Vec::with_capacity(alloc, RULE_COUNT)?;
    let rules = extended(rules, tokens())?;
    let rules = extended(rules, queries())?;
    let rules = extended(rules, statements())?;
    let rules = extended(rules, expressions())?;
    Ok(rules)
}
