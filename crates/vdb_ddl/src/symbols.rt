//! The numbers of the grammar of items, behind those of statements. It is written by `tools/table.py`.

/// The number of the first action of items.
pub const FIRST_DDL_ACTION: u16 = 768;

pub const CONSTRAINT: u16 = 167;

pub const DATA: u16 = 168;

pub const DATABASE: u16 = 169;

pub const FOREIGN: u16 = 170;

pub const KEY: u16 = 171;

pub const OPTIONS: u16 = 172;

pub const PRIMARY: u16 = 173;

pub const SCHEMA: u16 = 174;

pub const SERVER: u16 = 175;

pub const TABLE: u16 = 176;

pub const TYPE: u16 = 177;

pub const USE: u16 = 178;

pub const VERSION: u16 = 179;

pub const VIEW: u16 = 180;

pub const VIRTUAL: u16 = 181;

pub const WRAPPER: u16 = 182;

pub const LITERAL: u16 = 183;

pub const DDL_ITEM_RULE: u16 = 184;

pub const CREATED_RULE: u16 = 185;

pub const VERSION_PART_RULE: u16 = 186;

pub const TYPE_PART_RULE: u16 = 187;

pub const TABLE_PARTS_REST_RULE: u16 = 188;

pub const TABLE_PART_RULE: u16 = 189;

pub const NULL_PART_RULE: u16 = 190;

pub const PRIMARY_KEY_RULE: u16 = 191;

pub const VIEW_END_RULE: u16 = 192;

pub const VIEW_COLUMNS_REST_RULE: u16 = 193;

pub const VIEW_COLUMN_RULE: u16 = 194;

pub const VIEW_COLUMN_END_RULE: u16 = 195;

pub const TYPE_RULE: u16 = 196;

pub const TYPE_END_RULE: u16 = 197;

pub const NUMERALS_REST_RULE: u16 = 198;

pub const OPTIONS_PART_RULE: u16 = 199;

pub const OPTIONS_END_RULE: u16 = 200;

pub const SETTING_RULE: u16 = 201;

pub const SETTINGS_REST_RULE: u16 = 202;

pub const USE_DATABASE_ACTION: u16 = 768;

pub const SET_SCHEMA_ACTION: u16 = 769;

pub const CREATE_DATABASE_ACTION: u16 = 770;

pub const CREATE_SERVER_ACTION: u16 = 771;

pub const CREATE_SCHEMA_ACTION: u16 = 772;

pub const CREATE_VIRTUAL_SCHEMA_ACTION: u16 = 773;

pub const TABLE_PARTS_ACTION: u16 = 774;

pub const CREATE_TABLE_ACTION: u16 = 775;

pub const REQUIRED_COLUMN_ACTION: u16 = 776;

pub const COLUMN_ACTION: u16 = 777;

pub const PRIMARY_KEY_ACTION: u16 = 778;

pub const VIEW_COLUMNS_ACTION: u16 = 779;

pub const CREATE_VIEW_COLUMNS_ACTION: u16 = 780;

pub const CREATE_VIEW_ACTION: u16 = 781;

pub const TYPED_COLUMN_ACTION: u16 = 782;

pub const UNTYPED_COLUMN_ACTION: u16 = 783;

pub const OPTIONS_ACTION: u16 = 784;

pub const SETTING_ACTION: u16 = 785;
