//! The numbers of the grammar: kinds of tokens, symbols and actions. It is written by `tools/table.py`.
//!
//! A kind of tokens has the number of its own symbol; the words that may stand as names have kinds of their own.

/// The kind of the first word that the grammars know and that may stand as a name.
pub const FIRST_WORD: u16 = 448;

/// The kind of a token that stands nowhere.
pub const NOWHERE: u16 = 511;

/// The number of the first action.
pub const FIRST_ACTION: u16 = 512;

pub const ALL: u16 = 0;

pub const AND: u16 = 1;

pub const AS: u16 = 2;

pub const ASC: u16 = 3;

pub const BEGIN: u16 = 4;

pub const BETWEEN: u16 = 5;

pub const BY: u16 = 6;

pub const CASE: u16 = 7;

pub const COALESCE: u16 = 8;

pub const COMMIT: u16 = 9;

pub const COUNT: u16 = 10;

pub const CREATE: u16 = 11;

pub const CROSS: u16 = 12;

pub const DECLARE: u16 = 13;

pub const DELETE: u16 = 14;

pub const DESC: u16 = 15;

pub const DISTINCT: u16 = 16;

pub const ELSE: u16 = 17;

pub const END: u16 = 18;

pub const EXEC: u16 = 19;

pub const EXPLAIN: u16 = 20;

pub const FALSE: u16 = 21;

pub const FROM: u16 = 22;

pub const GROUP: u16 = 23;

pub const HAVING: u16 = 24;

pub const IF: u16 = 25;

pub const IN: u16 = 26;

pub const INNER: u16 = 27;

pub const INSERT: u16 = 28;

pub const INTO: u16 = 29;

pub const IS: u16 = 30;

pub const JOIN: u16 = 31;

pub const LEFT: u16 = 32;

pub const LIKE: u16 = 33;

pub const LIMIT: u16 = 34;

pub const LOOP: u16 = 35;

pub const MAX: u16 = 36;

pub const MIN: u16 = 37;

pub const NOT: u16 = 38;

pub const NULL: u16 = 39;

pub const OFFSET: u16 = 40;

pub const ON: u16 = 41;

pub const OR: u16 = 42;

pub const ORDER: u16 = 43;

pub const OUTER: u16 = 44;

pub const RAISE: u16 = 45;

pub const ROLLBACK: u16 = 46;

pub const SELECT: u16 = 47;

pub const SET: u16 = 48;

pub const START: u16 = 49;

pub const SUM: u16 = 50;

pub const THEN: u16 = 51;

pub const TRUE: u16 = 52;

pub const UNION: u16 = 53;

pub const UPDATE: u16 = 54;

pub const VALUES: u16 = 55;

pub const WHEN: u16 = 56;

pub const WHERE: u16 = 57;

pub const WHILE: u16 = 58;

pub const TRANSACTION: u16 = 59;

pub const NAME: u16 = 60;

pub const NUMERAL: u16 = 61;

pub const FRACTION: u16 = 62;

pub const STRING: u16 = 63;

pub const OPEN: u16 = 64;

pub const CLOSE: u16 = 65;

pub const COMMA: u16 = 66;

pub const DOT: u16 = 67;

pub const SEMICOLON: u16 = 68;

pub const EQUAL: u16 = 69;

pub const NOT_EQUAL: u16 = 70;

pub const LESS: u16 = 71;

pub const AT_MOST: u16 = 72;

pub const GREATER: u16 = 73;

pub const AT_LEAST: u16 = 74;

pub const PLUS: u16 = 75;

pub const MINUS: u16 = 76;

pub const TIMES: u16 = 77;

pub const BARS: u16 = 78;

pub const CONSTANT: u16 = 79;

pub const NO_NAME: u16 = 80;

pub const NO_NUMERAL: u16 = 81;

pub const SET_ONLY_RULE: u16 = 82;

pub const QUERY_RULE: u16 = 83;

pub const ORDER_PART_RULE: u16 = 84;

pub const KEYS_REST_RULE: u16 = 85;

pub const KEY_RULE: u16 = 86;

pub const NAME_DIRECTION_RULE: u16 = 87;

pub const NUMBER_DIRECTION_RULE: u16 = 88;

pub const LIMIT_PART_RULE: u16 = 89;

pub const OFFSET_PART_RULE: u16 = 90;

pub const SET_QUERY_RULE: u16 = 91;

pub const UNIONS_RULE: u16 = 92;

pub const UNION_END_RULE: u16 = 93;

pub const SELECT_RULE: u16 = 94;

pub const DISTINCT_PART_RULE: u16 = 95;

pub const ITEMS_RULE: u16 = 96;

pub const ITEMS_REST_RULE: u16 = 97;

pub const ITEM_RULE: u16 = 98;

pub const NAME_ITEM_RULE: u16 = 99;

pub const DOT_ITEM_RULE: u16 = 100;

pub const ITEM_END_RULE: u16 = 101;

pub const FROM_PART_RULE: u16 = 102;

pub const FROM_REST_RULE: u16 = 103;

pub const INNER_JOIN_RULE: u16 = 104;

pub const LEFT_JOIN_RULE: u16 = 105;

pub const OUTER_PART_RULE: u16 = 106;

pub const TABLE_RULE: u16 = 107;

pub const TABLE_END_RULE: u16 = 108;

pub const OPTIONAL_AS_RULE: u16 = 109;

pub const RELATION_RULE: u16 = 110;

pub const RELATION_END_RULE: u16 = 111;

pub const WHERE_PART_RULE: u16 = 112;

pub const GROUP_PART_RULE: u16 = 113;

pub const GROUP_REST_RULE: u16 = 114;

pub const HAVING_PART_RULE: u16 = 115;

pub const COLUMN_RULE: u16 = 116;

pub const COLUMN_END_RULE: u16 = 117;

pub const COLUMN_LAST_RULE: u16 = 118;

pub const STATEMENT_RULE: u16 = 119;

pub const INSERT_RULE: u16 = 120;

pub const COLUMNS_PART_RULE: u16 = 121;

pub const NAMES_REST_RULE: u16 = 122;

pub const INSERT_SOURCE_RULE: u16 = 123;

pub const UPDATE_RULE: u16 = 124;

pub const ASSIGNMENT_RULE: u16 = 125;

pub const ASSIGNMENTS_REST_RULE: u16 = 126;

pub const UPDATE_END_RULE: u16 = 127;

pub const DELETE_RULE: u16 = 128;

pub const DELETE_END_RULE: u16 = 129;

pub const EXEC_RULE: u16 = 130;

pub const ARGUMENTS_RULE: u16 = 131;

pub const LIST_RULE: u16 = 132;

pub const LIST_REST_RULE: u16 = 133;

pub const E_RULE: u16 = 134;

pub const OR_TAIL_RULE: u16 = 135;

pub const OR_LINK_RULE: u16 = 136;

pub const OR_REST_RULE: u16 = 137;

pub const CONJUNCTION_RULE: u16 = 138;

pub const AND_TAIL_RULE: u16 = 139;

pub const AND_LINK_RULE: u16 = 140;

pub const AND_REST_RULE: u16 = 141;

pub const NEGATION_RULE: u16 = 142;

pub const PREDICATE_RULE: u16 = 143;

pub const PREDICATE_END_RULE: u16 = 144;

pub const IS_END_RULE: u16 = 145;

pub const NOT_END_RULE: u16 = 146;

pub const CONCAT_RULE: u16 = 147;

pub const CONCAT_TAIL_RULE: u16 = 148;

pub const CONCAT_LINK_RULE: u16 = 149;

pub const CONCAT_REST_RULE: u16 = 150;

pub const SUM_RULE: u16 = 151;

pub const SUM_TAIL_RULE: u16 = 152;

pub const SUM_LINK_RULE: u16 = 153;

pub const SUM_REST_RULE: u16 = 154;

pub const PRODUCT_RULE: u16 = 155;

pub const PRODUCT_TAIL_RULE: u16 = 156;

pub const PRODUCT_LINK_RULE: u16 = 157;

pub const PRODUCT_REST_RULE: u16 = 158;

pub const UNARY_RULE: u16 = 159;

pub const MINUS_END_RULE: u16 = 160;

pub const AFTER_OPERAND_RULE: u16 = 161;

pub const ATOM_RULE: u16 = 162;

pub const COUNT_END_RULE: u16 = 163;

pub const ARM_RULE: u16 = 164;

pub const ARMS_REST_RULE: u16 = 165;

pub const CASE_END_RULE: u16 = 166;

pub const QUERY_ACTION: u16 = 512;

pub const NAME_ACTION: u16 = 513;

pub const LITERAL_ACTION: u16 = 514;

pub const KEY_NAME_ACTION: u16 = 515;

pub const KEY_NAME_DOWN_ACTION: u16 = 516;

pub const KEY_NUMBER_ACTION: u16 = 517;

pub const KEY_NUMBER_DOWN_ACTION: u16 = 518;

pub const LIMIT_ACTION: u16 = 519;

pub const OFFSET_ACTION: u16 = 520;

pub const SELECTS_ACTION: u16 = 521;

pub const UNION_ACTION: u16 = 522;

pub const UNION_ALL_ACTION: u16 = 523;

pub const SELECT_ACTION: u16 = 524;

pub const DISTINCT_ACTION: u16 = 525;

pub const ALL_ACTION: u16 = 526;

pub const PLAIN_ACTION: u16 = 527;

pub const OPERAND_ACTION: u16 = 528;

pub const ALL_OF_ACTION: u16 = 529;

pub const ITEM_AS_ACTION: u16 = 530;

pub const ITEM_ACTION: u16 = 531;

pub const FROM_ACTION: u16 = 532;

pub const INNER_ACTION: u16 = 533;

pub const LEFT_ACTION: u16 = 534;

pub const CROSS_ACTION: u16 = 535;

pub const DERIVED_ACTION: u16 = 536;

pub const TABLE_AS_ACTION: u16 = 537;

pub const TABLE_ACTION: u16 = 538;

pub const RELATION_OF_ACTION: u16 = 539;

pub const RELATION_ACTION: u16 = 540;

pub const WHERE_ACTION: u16 = 541;

pub const GROUP_KEY_ACTION: u16 = 542;

pub const HAVING_ACTION: u16 = 543;

pub const IN_SCHEMA_ACTION: u16 = 544;

pub const OF_ACTION: u16 = 545;

pub const RUN_ACTION: u16 = 546;

pub const EXPLAIN_ACTION: u16 = 547;

pub const START_ACTION: u16 = 548;

pub const COMMIT_ACTION: u16 = 549;

pub const ROLLBACK_ACTION: u16 = 550;

pub const NAMES_ACTION: u16 = 551;

pub const ADD_NAME_ACTION: u16 = 552;

pub const INSERT_VALUES_ACTION: u16 = 553;

pub const INSERT_QUERY_ACTION: u16 = 554;

pub const ASSIGNMENTS_ACTION: u16 = 555;

pub const ASSIGN_ACTION: u16 = 556;

pub const UPDATE_WHERE_ACTION: u16 = 557;

pub const UPDATE_ACTION: u16 = 558;

pub const DELETE_WHERE_ACTION: u16 = 559;

pub const DELETE_ACTION: u16 = 560;

pub const EXEC_ACTION: u16 = 561;

pub const LIST_ACTION: u16 = 562;

pub const ADD_ACTION: u16 = 563;

pub const LINKS_ACTION: u16 = 564;

pub const CHAIN_ACTION: u16 = 565;

pub const PLACE_ACTION: u16 = 566;

pub const OR_ACTION: u16 = 567;

pub const AND_ACTION: u16 = 568;

pub const NOT_ACTION: u16 = 569;

pub const EQUAL_ACTION: u16 = 570;

pub const NOT_EQUAL_ACTION: u16 = 571;

pub const LESS_ACTION: u16 = 572;

pub const AT_MOST_ACTION: u16 = 573;

pub const GREATER_ACTION: u16 = 574;

pub const AT_LEAST_ACTION: u16 = 575;

pub const IN_ACTION: u16 = 576;

pub const LIKE_ACTION: u16 = 577;

pub const BETWEEN_ACTION: u16 = 578;

pub const IS_NULL_ACTION: u16 = 579;

pub const IS_NOT_NULL_ACTION: u16 = 580;

pub const NOT_IN_ACTION: u16 = 581;

pub const NOT_LIKE_ACTION: u16 = 582;

pub const NOT_BETWEEN_ACTION: u16 = 583;

pub const CONCAT_ACTION: u16 = 584;

pub const PLUS_ACTION: u16 = 585;

pub const MINUS_ACTION: u16 = 586;

pub const TIMES_ACTION: u16 = 587;

pub const NEGATIVE_ACTION: u16 = 588;

pub const CONSTANT_ACTION: u16 = 589;

pub const NEGATE_ACTION: u16 = 590;

pub const PARENS_ACTION: u16 = 591;

pub const SUM_ACTION: u16 = 592;

pub const MIN_ACTION: u16 = 593;

pub const MAX_ACTION: u16 = 594;

pub const COALESCE_ACTION: u16 = 595;

pub const ARMS_ACTION: u16 = 596;

pub const COUNT_ALL_ACTION: u16 = 597;

pub const COUNT_ACTION: u16 = 598;

pub const ARM_ACTION: u16 = 599;

pub const CASE_ACTION: u16 = 600;

pub const CASE_ELSE_ACTION: u16 = 601;

pub const TRANSACTION_WORD: u16 = 448;

pub const ATOMIC_WORD: u16 = 449;

pub const SQLEXCEPTION_WORD: u16 = 450;

pub const ACCESSPATTERN_WORD: u16 = 451;

pub const CONSTRAINT_WORD: u16 = 452;

pub const DATA_WORD: u16 = 453;

pub const DATABASE_WORD: u16 = 454;

pub const EACH_WORD: u16 = 455;

pub const FOR_WORD: u16 = 456;

pub const FOREIGN_WORD: u16 = 457;

pub const INSTEAD_WORD: u16 = 458;

pub const KEY_WORD: u16 = 459;

pub const OF_WORD: u16 = 460;

pub const OPTIONS_WORD: u16 = 461;

pub const PRIMARY_WORD: u16 = 462;

pub const PROCEDURE_WORD: u16 = 463;

pub const RETURNS_WORD: u16 = 464;

pub const ROW_WORD: u16 = 465;

pub const SCHEMA_WORD: u16 = 466;

pub const SERVER_WORD: u16 = 467;

pub const TABLE_WORD: u16 = 468;

pub const TRIGGER_WORD: u16 = 469;

pub const TYPE_WORD: u16 = 470;

pub const USE_WORD: u16 = 471;

pub const VERSION_WORD: u16 = 472;

pub const VIEW_WORD: u16 = 473;

pub const VIRTUAL_WORD: u16 = 474;

pub const WRAPPER_WORD: u16 = 475;
