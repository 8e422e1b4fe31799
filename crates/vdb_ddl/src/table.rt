//! The table of the grammar of items. It is written by `tools/table.py`, and is that of `specs/Table`.

ghost use Rattle.std.specs.Prelude.{◌≡◌, IfOk};
ghost use Rattle.grammar.specs.Table.{shapes};
ghost use Rattle.vdb_ddl.specs.Table as spec;

use crate::symbols::*;
use grammar::{Item, Place, Rule};
use sql_reader::symbols::{
    ADD_NAME_ACTION, AS, CLOSE, COMMA, CONSTRAINT_WORD, CREATE, DATA_WORD, DATABASE_WORD, FALSE,
    FOREIGN_WORD, KEY_WORD, LITERAL_ACTION, NAME, NAME_ACTION, NAMES_ACTION, NAMES_REST_RULE, NOT,
    NULL, NUMERAL, OPEN, OPTIONS_WORD, PRIMARY_WORD, SCHEMA_WORD, SERVER_WORD, SET, SET_ONLY_RULE,
    STRING, TABLE_WORD, TRUE, TYPE_WORD, USE_WORD, VERSION_WORD, VIEW_WORD, VIRTUAL_WORD,
    WRAPPER_WORD,
};
use sql_reader::table::extended;
use std::alloc::Global;
use vdb_base::NoMemory;

macro_rules! same { ($symbol:expr) => { Item { symbol: $symbol, place: Place::Same } }; }

macro_rules! deeper { ($symbol:expr) => { Item { symbol: $symbol, place: Place::Deeper } }; }

/// The tokens of items.
static WORDS: [Rule<'static>; 17] = [
    Rule::Token(&[CONSTRAINT_WORD]),
    Rule::Token(&[DATA_WORD]),
    Rule::Token(&[DATABASE_WORD]),
    Rule::Token(&[FOREIGN_WORD]),
    Rule::Token(&[KEY_WORD]),
    Rule::Token(&[OPTIONS_WORD]),
    Rule::Token(&[PRIMARY_WORD]),
    Rule::Token(&[SCHEMA_WORD]),
    Rule::Token(&[SERVER_WORD]),
    Rule::Token(&[TABLE_WORD]),
    Rule::Token(&[TYPE_WORD]),
    Rule::Token(&[USE_WORD]),
    Rule::Token(&[VERSION_WORD]),
    Rule::Token(&[VIEW_WORD]),
    Rule::Token(&[VIRTUAL_WORD]),
    Rule::Token(&[WRAPPER_WORD]),
    Rule::Token(&[STRING, NUMERAL, TRUE, FALSE]),
];

/// The tokens of items.
fn words() -> &'static [Rule<'static>]
    ensures { shapes result.now ≡ spec.words }
{
    &WORDS
}

/// The rules of items.
static ITEMS: [Rule<'static>; 19] = [
    // ddl_item
    Rule::Choice {
        weight: 1,
        solid: true,
        rank: 1,
        alternatives: &[
            &[same!(CREATE), same!(CREATED_RULE)],
            &[
                same!(USE),
                same!(DATABASE),
                same!(NAME),
                same!(NAME_ACTION),
                same!(VERSION_PART_RULE),
                same!(USE_DATABASE_ACTION),
            ],
            &[
                same!(SET),
                same!(SCHEMA),
                same!(NAME),
                same!(NAME_ACTION),
                same!(SET_SCHEMA_ACTION),
            ],
        ],
    },
    // created
    Rule::Choice {
        weight: 1,
        solid: true,
        rank: 3,
        alternatives: &[
            &[
                same!(DATABASE),
                same!(NAME),
                same!(NAME_ACTION),
                same!(VERSION_PART_RULE),
                same!(OPTIONS_PART_RULE),
                same!(CREATE_DATABASE_ACTION),
            ],
            &[
                same!(SERVER),
                same!(NAME),
                same!(NAME_ACTION),
                same!(TYPE_PART_RULE),
                same!(VERSION_PART_RULE),
                same!(FOREIGN),
                same!(DATA),
                same!(WRAPPER),
                same!(NAME),
                same!(NAME_ACTION),
                same!(OPTIONS_PART_RULE),
                same!(CREATE_SERVER_ACTION),
            ],
            &[
                same!(SCHEMA),
                same!(NAME),
                same!(NAME_ACTION),
                same!(SERVER),
                same!(NAME),
                same!(NAME_ACTION),
                same!(OPTIONS_PART_RULE),
                same!(CREATE_SCHEMA_ACTION),
            ],
            &[
                same!(VIRTUAL),
                same!(SCHEMA),
                same!(NAME),
                same!(NAME_ACTION),
                same!(OPTIONS_PART_RULE),
                same!(CREATE_VIRTUAL_SCHEMA_ACTION),
            ],
            &[
                same!(FOREIGN),
                same!(TABLE),
                same!(NAME),
                same!(NAME_ACTION),
                same!(TABLE_PARTS_ACTION),
                deeper!(OPEN),
                deeper!(TABLE_PART_RULE),
                deeper!(TABLE_PARTS_REST_RULE),
                deeper!(CLOSE),
                same!(OPTIONS_PART_RULE),
                same!(CREATE_TABLE_ACTION),
            ],
            &[
                same!(VIEW),
                same!(NAME),
                same!(NAME_ACTION),
                same!(VIEW_END_RULE),
            ],
        ],
    },
    // version_part
    Rule::Choice {
        weight: 1,
        solid: false,
        rank: 1,
        alternatives: &[&[same!(VERSION), same!(STRING)], &[]],
    },
    // type_part
    Rule::Choice {
        weight: 1,
        solid: false,
        rank: 1,
        alternatives: &[&[same!(TYPE), same!(STRING)], &[]],
    },
    // table_parts_rest
    Rule::Choice {
        weight: 1,
        solid: false,
        rank: 1,
        alternatives: &[
            &[
                same!(COMMA),
                same!(TABLE_PART_RULE),
                same!(TABLE_PARTS_REST_RULE),
            ],
            &[],
        ],
    },
    // table_part
    Rule::Choice {
        weight: 2,
        solid: true,
        rank: 3,
        alternatives: &[
            &[
                same!(NAME),
                same!(NAME_ACTION),
                same!(TYPE_RULE),
                same!(NULL_PART_RULE),
            ],
            &[same!(CONSTRAINT), same!(NAME), same!(PRIMARY_KEY_RULE)],
            &[same!(PRIMARY_KEY_RULE)],
        ],
    },
    // null_part
    Rule::Choice {
        weight: 5,
        solid: false,
        rank: 3,
        alternatives: &[
            &[
                same!(NOT),
                same!(NULL),
                same!(OPTIONS_PART_RULE),
                same!(REQUIRED_COLUMN_ACTION),
            ],
            &[same!(OPTIONS_PART_RULE), same!(COLUMN_ACTION)],
        ],
    },
    // primary_key
    Rule::Choice {
        weight: 1,
        solid: true,
        rank: 2,
        alternatives: &[&[
            same!(PRIMARY),
            same!(KEY),
            same!(NAMES_ACTION),
            deeper!(OPEN),
            deeper!(NAME),
            deeper!(NAME_ACTION),
            deeper!(ADD_NAME_ACTION),
            deeper!(NAMES_REST_RULE),
            deeper!(CLOSE),
            same!(PRIMARY_KEY_ACTION),
        ]],
    },
    // view_end
    Rule::Choice {
        weight: 4,
        solid: true,
        rank: 5,
        alternatives: &[
            &[
                same!(VIEW_COLUMNS_ACTION),
                deeper!(OPEN),
                deeper!(VIEW_COLUMN_RULE),
                deeper!(VIEW_COLUMNS_REST_RULE),
                deeper!(CLOSE),
                same!(OPTIONS_PART_RULE),
                same!(AS),
                same!(SET_ONLY_RULE),
                same!(CREATE_VIEW_COLUMNS_ACTION),
            ],
            &[
                same!(OPTIONS_PART_RULE),
                same!(AS),
                same!(SET_ONLY_RULE),
                same!(CREATE_VIEW_ACTION),
            ],
        ],
    },
    // view_columns_rest
    Rule::Choice {
        weight: 1,
        solid: false,
        rank: 1,
        alternatives: &[
            &[
                same!(COMMA),
                same!(VIEW_COLUMN_RULE),
                same!(VIEW_COLUMNS_REST_RULE),
            ],
            &[],
        ],
    },
    // view_column
    Rule::Choice {
        weight: 1,
        solid: true,
        rank: 4,
        alternatives: &[&[same!(NAME), same!(NAME_ACTION), same!(VIEW_COLUMN_END_RULE)]],
    },
    // view_column_end
    Rule::Choice {
        weight: 5,
        solid: false,
        rank: 3,
        alternatives: &[
            &[
                same!(TYPE_RULE),
                same!(OPTIONS_PART_RULE),
                same!(TYPED_COLUMN_ACTION),
            ],
            &[same!(OPTIONS_PART_RULE), same!(UNTYPED_COLUMN_ACTION)],
        ],
    },
    // type
    Rule::Choice {
        weight: 1,
        solid: true,
        rank: 2,
        alternatives: &[&[same!(NAME), same!(NAME_ACTION), same!(TYPE_END_RULE)]],
    },
    // type_end
    Rule::Choice {
        weight: 1,
        solid: false,
        rank: 1,
        alternatives: &[
            &[
                deeper!(OPEN),
                deeper!(NUMERAL),
                deeper!(NUMERALS_REST_RULE),
                deeper!(CLOSE),
            ],
            &[],
        ],
    },
    // numerals_rest
    Rule::Choice {
        weight: 1,
        solid: false,
        rank: 1,
        alternatives: &[
            &[same!(COMMA), same!(NUMERAL), same!(NUMERALS_REST_RULE)],
            &[],
        ],
    },
    // options_part
    Rule::Choice {
        weight: 3,
        solid: false,
        rank: 2,
        alternatives: &[&[same!(OPTIONS_ACTION), same!(OPTIONS_END_RULE)]],
    },
    // options_end
    Rule::Choice {
        weight: 1,
        solid: false,
        rank: 1,
        alternatives: &[
            &[
                same!(OPTIONS),
                deeper!(OPEN),
                deeper!(SETTING_RULE),
                deeper!(SETTINGS_REST_RULE),
                deeper!(CLOSE),
            ],
            &[],
        ],
    },
    // setting
    Rule::Choice {
        weight: 1,
        solid: true,
        rank: 1,
        alternatives: &[&[
            same!(NAME),
            same!(NAME_ACTION),
            same!(LITERAL),
            same!(LITERAL_ACTION),
            same!(SETTING_ACTION),
        ]],
    },
    // settings_rest
    Rule::Choice {
        weight: 1,
        solid: false,
        rank: 1,
        alternatives: &[
            &[same!(COMMA), same!(SETTING_RULE), same!(SETTINGS_REST_RULE)],
            &[],
        ],
    },
];

/// The rules of items.
fn items() -> &'static [Rule<'static>]
    ensures { shapes result.now ≡ spec.items }
{
    &ITEMS
}

/// The rule of each symbol, by its number.
pub(crate) fn rules(alloc: Global) -> Result<Vec<Rule<'static>>, NoMemory>
    ensures { IfOk result (λ rules. shapes rules.items ≡ spec.table) }
{
    let rules = sql_reader::table::rules(alloc)?;
    let rules = extended(rules, words())?;
    extended(rules, items())
}
