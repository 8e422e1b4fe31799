use crate::{Cause, Event, Grammar, IllFormed, Item, Place, ReadFault, Rule, read, read_front};
use std::alloc::Global;
use std::test::Fail;

macro_rules! same {
    ($symbol:expr) => {
        Item {
            symbol: $symbol,
            place: Place::Same,
        }
    };
}

macro_rules! deeper {
    ($symbol:expr) => {
        Item {
            symbol: $symbol,
            place: Place::Deeper,
        }
    };
}

macro_rules! first {
    ($symbol:expr) => {
        Item {
            symbol: $symbol,
            place: Place::First,
        }
    };
}

macro_rules! next {
    ($symbol:expr) => {
        Item {
            symbol: $symbol,
            place: Place::Next,
        }
    };
}

// The kinds of tokens, all but the last of which are also the numbers of their symbols; a soft word is read as a name.
const NUMERAL: u16 = 0;

const PLUS: u16 = 1;

const MINUS: u16 = 2;

const OPEN: u16 = 3;

const CLOSE: u16 = 4;

const COMMA: u16 = 5;

const IF: u16 = 6;

const ELSE: u16 = 7;

const NAME: u16 = 8;

const SOFT: u16 = 9;

const TEXT: u16 = 9;

const LIST: u16 = 10;

const LIST_REST: u16 = 11;

const SUM: u16 = 12;

const SUM_REST: u16 = 13;

const UNIT: u16 = 14;

const MINUS_REST: u16 = 15;

const NO_NUMERAL: u16 = 16;

const STATEMENT: u16 = 17;

const ELSE_PART: u16 = 18;

const NO_ELSE: u16 = 19;

const NUMBER: u16 = 100;

const NAMED: u16 = 101;

const ADD: u16 = 102;

const NEGATIVE: u16 = 103;

const NEGATE: u16 = 104;

const LISTED: u16 = 105;

const RUN: u16 = 106;

const WHEN: u16 = 107;

const EITHER: u16 = 108;

static RULES: [Rule<'static>; 20] = [
    Rule::Token(&[NUMERAL]),
    Rule::Token(&[PLUS]),
    Rule::Token(&[MINUS]),
    Rule::Token(&[OPEN]),
    Rule::Token(&[CLOSE]),
    Rule::Token(&[COMMA]),
    Rule::Token(&[IF]),
    Rule::Token(&[ELSE]),
    Rule::Token(&[NAME, SOFT]),
    // TEXT
    Rule::Choice {
        weight: 4,
        solid: true,
        rank: 2,
        alternatives: &[&[same!(LIST), same!(LISTED)], &[same!(STATEMENT)]],
    },
    // LIST
    Rule::Choice {
        weight: 3,
        solid: true,
        rank: 3,
        alternatives: &[&[first!(SUM), first!(LIST_REST)]],
    },
    // LIST_REST
    Rule::Choice {
        weight: 1,
        solid: false,
        rank: 1,
        alternatives: &[&[same!(COMMA), next!(SUM), next!(LIST_REST)], &[]],
    },
    // SUM
    Rule::Choice {
        weight: 2,
        solid: true,
        rank: 2,
        alternatives: &[&[same!(UNIT), same!(SUM_REST)]],
    },
    // SUM_REST
    Rule::Choice {
        weight: 1,
        solid: false,
        rank: 1,
        alternatives: &[
            &[same!(PLUS), same!(UNIT), same!(ADD), same!(SUM_REST)],
            &[],
        ],
    },
    // UNIT
    Rule::Choice {
        weight: 1,
        solid: true,
        rank: 1,
        alternatives: &[
            &[same!(NUMERAL), same!(NUMBER)],
            &[same!(NAME), same!(NAMED)],
            &[deeper!(OPEN), deeper!(SUM), deeper!(CLOSE)],
            &[same!(MINUS), same!(MINUS_REST)],
        ],
    },
    // MINUS_REST
    Rule::Choice {
        weight: 3,
        solid: true,
        rank: 1,
        alternatives: &[
            &[same!(NUMERAL), same!(NEGATIVE)],
            &[same!(NO_NUMERAL), deeper!(UNIT), same!(NEGATE)],
        ],
    },
    Rule::Unless(&[NUMERAL]),
    // STATEMENT
    Rule::Choice {
        weight: 1,
        solid: true,
        rank: 1,
        alternatives: &[
            &[same!(IF), same!(STATEMENT), same!(ELSE_PART)],
            &[same!(NAME), same!(RUN)],
        ],
    },
    // ELSE_PART
    Rule::Choice {
        weight: 3,
        solid: false,
        rank: 1,
        alternatives: &[
            &[same!(ELSE), same!(STATEMENT), same!(EITHER)],
            &[same!(NO_ELSE), same!(WHEN)],
        ],
    },
    Rule::Unless(&[ELSE]),
];

fn kind_of(letter: u8) -> u16 {
    match letter {
        b'1' => NUMERAL,
        b'+' => PLUS,
        b'-' => MINUS,
        b'(' => OPEN,
        b')' => CLOSE,
        b',' => COMMA,
        b'i' => IF,
        b'e' => ELSE,
        b'n' => NAME,
        _ => SOFT,
    }
}

/// The kinds of the tokens: of the first text, then of the second so many times, then of the third.
fn tokens(
    alloc: Global,
    front: &str,
    middle: &str,
    times: usize,
    back: &str,
) -> Result<Vec<u16>, Fail> {
    let mut kinds = Vec::new(alloc);
    for letter in front.as_bytes() {
        kinds.push(kind_of(*letter))?;
    }
    for _ in 0..times {
        for letter in middle.as_bytes() {
            kinds.push(kind_of(*letter))?;
        }
    }
    for letter in back.as_bytes() {
        kinds.push(kind_of(*letter))?;
    }
    Ok(kinds)
}

fn word_of(action: u16) -> &'static str {
    match action {
        NUMBER => "number",
        NAMED => "name",
        ADD => "add",
        NEGATIVE => "negative",
        NEGATE => "negate",
        LISTED => "list",
        RUN => "run",
        WHEN => "when",
        EITHER => "either",
        _ => "?",
    }
}

fn shown(alloc: Global, log: &[Event]) -> Result<String, Fail> {
    let mut shown = String::new(alloc);
    for event in log {
        shown.push_str(word_of(event.action))?;
        shown.push_str(format!(in alloc; "{} ", event.at)?.as_str())?;
    }
    Ok(shown)
}

fn said(alloc: Global, fault: ReadFault) -> Result<String, Fail> {
    match fault {
        ReadFault::Syntax { at } => Ok(format!(in alloc; "fault {at}")?),
        ReadFault::Memory => Ok(String::from_str(alloc, "memory")?),
    }
}

#[test]
fn reads_texts(rt: HostRuntime) -> Result<(), Fail> {
    let alloc = rt.alloc();
    let grammar = Grammar::known(&RULES);
    let table: [(&str, &str); 14] = [
        (
            "1+1+(1+1)",
            "number1 number3 add3 number6 number8 add8 add9 list9 ",
        ),
        ("1,1+1", "number1 number3 number5 add5 list5 "),
        ("--1", "negative3 negate3 list3 "),
        ("-(1)", "number3 negate4 list4 "),
        ("inen", "run2 run4 either4 "),
        // An else goes with the nearest if.
        ("iinenen", "run3 run5 either5 run7 either7 "),
        ("iinen", "run3 run5 either5 when5 "),
        ("s", "name1 list1 "),
        ("", "fault 0"),
        ("1+", "fault 2"),
        ("1+)", "fault 2"),
        ("1 1", "fault 1"),
        ("i1", "fault 1"),
        ("inene", "fault 4"),
    ];
    for (text, wanted) in table {
        let text = tokens(alloc, text, "", 0, "")?;
        let found = match read(alloc, &grammar, TEXT, text.as_slice()) {
            Ok(log) => shown(alloc, log.as_slice())?,
            Err(fault) => said(alloc, fault)?,
        };
        assert_eq!(rt; found.as_str(), wanted);
    }
    Ok(())
}

#[test]
fn keeps_limits(rt: HostRuntime) -> Result<(), Fail> {
    let alloc = rt.alloc();
    let grammar = Grammar::known(&RULES);
    // A text of repeated parts, and where it is refused.
    let table: [(&str, &str, usize, &str, Option<usize>); 12] = [
        // The last token stands 64 parentheses deep, or 65.
        ("", "(", 64, "1", Some(65)),
        ("", "1+(", 64, "-1", Some(194)),
        ("", "(", 65, "1", Some(64)),
        ("", "(", 64, "-n", Some(65)),
        // A sign that belongs to a literal opens no level.
        ("", "-", 65, "1", None),
        ("", "-", 65, "n", Some(65)),
        ("", "-", 66, "1", Some(65)),
        // 64 elements, or 65.
        ("1", ",1", 63, "", None),
        ("1", ",1", 64, "", Some(128)),
        ("1", ",1", 63, ",)", Some(128)),
        // 65,536 tokens, or one more.
        ("-1", "+1", 32767, "", None),
        ("1", "+1", 32768, "", Some(65536)),
    ];
    for (front, middle, times, back, wanted) in table {
        let text = tokens(alloc, front, middle, times, back)?;
        let found = match read(alloc, &grammar, TEXT, text.as_slice()) {
            Ok(_) => None,
            Err(ReadFault::Syntax { at }) => Some(at),
            Err(ReadFault::Memory) => Some(usize::MAX),
        };
        assert_eq!(rt; found, wanted);
    }
    Ok(())
}

#[test]
fn reads_fronts(rt: HostRuntime) -> Result<(), Fail> {
    let alloc = rt.alloc();
    let grammar = Grammar::known(&RULES);
    let table: [(&str, u16, &str); 7] = [
        ("1+1)1", TEXT, "number1 number3 add3 list3 then 3"),
        ("1+1", SUM, "number1 number3 add3 then 3"),
        ("1,1", SUM, "number1 then 1"),
        ("ine", TEXT, "fault 3"),
        ("in)", TEXT, "run2 when2 then 2"),
        ("1+)", TEXT, "fault 2"),
        (")", TEXT, "fault 0"),
    ];
    for (text, start, wanted) in table {
        let text = tokens(alloc, text, "", 0, "")?;
        let found = match read_front(alloc, &grammar, start, text.as_slice()) {
            Ok(front) => {
                let mut found = shown(alloc, front.log.as_slice())?;
                found.push_str(format!(in alloc; "then {}", front.next)?.as_str())?;
                found
            }
            Err(fault) => said(alloc, fault)?,
        };
        assert_eq!(rt; found.as_str(), wanted);
    }
    Ok(())
}

static NO_KIND: [Rule<'static>; 2] = [Rule::Token(&[NUMERAL]), Rule::Token(&[])];

// It begins with itself.
static LEFT: [Rule<'static>; 2] = [
    Rule::Token(&[NUMERAL]),
    Rule::Choice {
        weight: 1,
        solid: true,
        rank: 1,
        alternatives: &[&[same!(1), same!(0)], &[same!(0)]],
    },
];

static NOT_SOLID: [Rule<'static>; 2] = [
    Rule::Token(&[NUMERAL]),
    Rule::Choice {
        weight: 1,
        solid: true,
        rank: 1,
        alternatives: &[&[same!(0), same!(1)], &[]],
    },
];

// It never ends.
static ENDLESS: [Rule<'static>; 2] = [
    Rule::Token(&[NUMERAL]),
    Rule::Choice {
        weight: 1,
        solid: true,
        rank: 1,
        alternatives: &[&[same!(0), same!(1)]],
    },
];

#[test]
fn tests_tables(rt: HostRuntime) -> Result<(), Fail> {
    let table: [(&[Rule], Option<Cause>); 5] = [
        (&RULES, None),
        (&NO_KIND, Some(Cause::NoKind)),
        (&LEFT, Some(Cause::Weight)),
        (&NOT_SOLID, Some(Cause::Solid)),
        (&ENDLESS, Some(Cause::Rank)),
    ];
    for (rules, wanted) in table {
        let found = match Grammar::new(rules) {
            Ok(_) => None,
            Err(IllFormed { rule: 1, cause }) => Some(cause),
            Err(_) => Some(Cause::NoKind),
        };
        assert_eq!(rt; found, wanted);
    }
    Ok(())
}
