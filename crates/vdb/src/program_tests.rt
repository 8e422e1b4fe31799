//! What no clause says: what runs of the program print, seen whole.

use crate::maker::ReadyMaker;
use crate::program::program;
use resource::{Lane, Lanes, MemResource, StoredTable, Tables};
use std::alloc::Global;
use std::test::Fail;
use std::thread::Threads;
use vdb_base::{Bytes, MemFeed, MemSink, NoMemory, Row, Seq, Text, Value};
use vdb_model::{Caps, Kind};
use vdb_session::Parts;

/// What a store in memory can do: nothing but whole columns.
pub(crate) const PLAIN: Caps = Caps {
    equals: false,
    ordered: false,
    in_max: 0,
    is_null: false,
    like: false,
    or: false,
    not: false,
    joins: false,
    distinct: false,
    order: false,
    limit: false,
    count_star: false,
    wide: true,
    writes: true,
};

const WORDS: &str = "run one.ddl crm=csv:data";

const DDL: &str =
    "CREATE SERVER crm FOREIGN DATA WRAPPER csv;CREATE SCHEMA c SERVER crm;SET SCHEMA c;CREATE FOREIGN TABLE cust (id integer, name string);";

/// The same with two views, of which one stands on the other.
const VIEWS: &str =
    "CREATE SERVER crm FOREIGN DATA WRAPPER csv;CREATE SCHEMA c SERVER crm;SET SCHEMA c;CREATE FOREIGN TABLE cust (id integer, name string);CREATE VIRTUAL SCHEMA v;SET SCHEMA v;CREATE VIEW a AS SELECT id AS n, name AS w FROM c.cust;CREATE VIEW b AS SELECT x.n, y.n AS m FROM v.a x JOIN v.a y ON x.w = y.w;";

#[derive(Clone, Copy)]
pub(crate) enum Cell {
    Null,
    Bool(bool),
    Num(i128),
    Str(&'static str),
}

const CUST: [[Cell; 2]; 3] = [
    [Cell::Num(1), Cell::Str("Ann")],
    [Cell::Num(2), Cell::Str("Bob")],
    [Cell::Num(3), Cell::Null],
];

const PEOPLE: [[Cell; 2]; 3] = [
    [Cell::Num(1), Cell::Str("Ann")],
    [Cell::Num(2), Cell::Str("Bob")],
    [Cell::Num(3), Cell::Str("Bob")],
];

/// The numbers of the calls that fail, and at most how many bytes each read gives.
#[derive(Clone, Copy)]
struct Fails<'a> {
    maker: &'a [u32],
    lane: &'a [u32],
    feed: &'a [u32],
    cuts: &'a [u32],
    sink: &'a [u32],
}

const NONE: Fails<'static> = Fails {
    maker: &[],
    lane: &[],
    feed: &[],
    cuts: &[],
    sink: &[],
};

pub(crate) fn seq<T: Copy + Drop>(alloc: Global, items: &[T]) -> Result<Seq<T>, NoMemory> {
    let mut made = Seq::new(alloc);
    for item in items {
        made.push(*item)?;
    }
    Ok(made)
}

pub(crate) fn row(alloc: Global, cells: &[Cell]) -> Result<Row, NoMemory> {
    let mut made = Seq::new(alloc);
    for cell in cells {
        made.push(match cell {
            Cell::Null => Value::Null,
            Cell::Bool(truth) => Value::Bool(*truth),
            Cell::Num(number) => Value::Num(*number),
            Cell::Str(text) => Value::Str(Text::from_str(alloc, text)?),
        })?;
    }
    Ok(made)
}

/// The one table, stored as `cust`.
fn stored(alloc: Global, cust: &[[Cell; 2]]) -> Result<Tables, NoMemory> {
    let mut rows = Seq::new(alloc);
    for cells in cust {
        rows.push(row(alloc, cells.as_slice())?)?;
    }
    let mut tables = Seq::new(alloc);
    tables.push(StoredTable {
        source: Text::from_str(alloc, "cust")?,
        rows,
    })?;
    Ok(tables)
}

/// The DDL and the one lane, named crm.
fn parts(
    alloc: Global,
    ddl: &str,
    cust: &[[Cell; 2]],
    fails: &[u32],
) -> Result<Parts<MemResource>, Fail> {
    let res = MemResource::new(alloc, stored(alloc, cust)?, PLAIN, seq(alloc, fails)?);
    let lane = Lane::new(Text::from_str(alloc, "crm")?, Kind::Csv, res);
    Ok(Parts {
        ddl: seq(alloc, ddl.as_bytes())?,
        lanes: Lanes::from_vec(vec![in alloc; lane]?),
    })
}

/// What a run printed, and its status.
fn run_bytes<R: Threads + Sync>(
    rt: &R,
    alloc: Global,
    line: &str,
    parts: Parts<MemResource>,
    script: Bytes,
    fails: Fails<'_>,
) -> Result<String, Fail> {
    let mut words = Vec::new(alloc);
    for word in line.split(' ') {
        words.push(String::from_str(alloc, word)?)?;
    }
    let mut maker = ReadyMaker::new(parts, seq(alloc, fails.maker)?);
    let mut feed = MemFeed::new(script, seq(alloc, fails.cuts)?, seq(alloc, fails.feed)?);
    let mut sink = MemSink::new(alloc, seq(alloc, fails.sink)?);
    let status = program(rt, alloc, &words, &mut maker, &mut feed, &mut sink);
    let Ok(printed) = std::str::from_utf8(sink.bytes()) else {
        return Err("what was printed is no text".into());
    };
    Ok(format!(in alloc; "{printed}|{status}")?)
}

fn run<R: Threads + Sync>(
    rt: &R,
    alloc: Global,
    line: &str,
    ddl: &str,
    cust: &[[Cell; 2]],
    script: &str,
    fails: Fails<'_>,
) -> Result<String, Fail> {
    let parts = parts(alloc, ddl, cust, fails.lane)?;
    let script = seq(alloc, script.as_bytes())?;
    run_bytes(rt, alloc, line, parts, script, fails)
}

/// Scripts, and what runs of them print.
const SCRIPTS: [(&str, &str); 11] = [
    (
        "SELECT id, name FROM c.cust WHERE name = 'Bob';",
        "COLUMNS id,name\nROW 2,'Bob'\nEND 1\n|0",
    ),
    (
        "SELECT id, name FROM c.cust;",
        "COLUMNS id,name\nROW 1,'Ann'\nROW 2,'Bob'\nROW 3,NULL\nEND 3\n|0",
    ),
    (
        "SELECT name FROM cust WHERE name = 'Cid';",
        "COLUMNS name\nEND 0\n|0",
    ),
    (
        "select NAME, id from cust where id = 3",
        "COLUMNS name,id\nROW NULL,3\nEND 1\n|0",
    ),
    (
        "SELECT id FROM cust WHERE id = 1;\nSELECT name FROM cust WHERE name = 'Ann'",
        "COLUMNS id\nROW 1\nEND 1\nCOLUMNS name\nROW 'Ann'\nEND 1\n|0",
    ),
    (
        "SELECT id FROM cust WHERE name = NULL;",
        "COLUMNS id\nEND 0\n|0",
    ),
    ("SELECT id FROM c.custs;", "REFUSED 2 c.custs\n|1"),
    (
        "SELECT x FROM cust; SELECT FROM cust; SELECT id FROM cust WHERE id = 2;",
        "REFUSED 2 x\nREFUSED 1 at 27\nCOLUMNS id\nROW 2\nEND 1\n|1",
    ),
    (
        "; SELECT id FROM cust WHERE id = 'x';",
        "REFUSED 4 at 31\n|1",
    ),
    ("", "|0"),
    ("-- nothing\n;;", "|0"),
];

#[test]
fn answers_scripts(rt: HostRuntime) -> Result<(), Fail> {
    let alloc = rt.alloc();
    for (script, wanted) in SCRIPTS {
        assert_eq!(rt;
            run(&rt, alloc, WORDS, DDL, CUST.as_slice(), script, NONE)?.as_str(),
            wanted,
            "at {script}"
        );
    }
    Ok(())
}

/// DDL with scripts over three rows, and what runs of them print.
const WORKED: [(&str, &str, &str); 12] = [
    (
        VIEWS,
        "SELECT n, m FROM v.b WHERE n = 2 ORDER BY 2;",
        "COLUMNS n,m\nROW 2,2\nROW 2,3\nEND 2\n|0",
    ),
    (
        VIEWS,
        "SELECT n FROM v.a x JOIN v.a y ON x.n = y.n;",
        "REFUSED 3 n\n|1",
    ),
    (
        DDL,
        "SELECT name, COUNT(*) AS n FROM c.cust GROUP BY name ORDER BY n DESC;",
        "COLUMNS name,n\nROW 'Bob',2\nROW 'Ann',1\nEND 2\n|0",
    ),
    (DDL, "SELECT 1.5 FROM c.cust;", "REFUSED 5 at 7\n|1"),
    (
        DDL,
        "SELECT id + 1 + 1 + 1 FROM c.cust;",
        "REFUSED 6 at 18\n|1",
    ),
    (DDL, "SELECT FROM c.cust;", "REFUSED 1 at 7\n|1"),
    (DDL, "SELECT nosuch FROM c.cust;", "REFUSED 2 nosuch\n|1"),
    (
        DDL,
        "SELECT id FROM c.cust WHERE name = 1;",
        "REFUSED 4 at 33\n|1",
    ),
    (
        DDL,
        "SELECT id FROM c.cust;SELECT 1.5 FROM c.cust;",
        "COLUMNS id\nROW 1\nROW 2\nROW 3\nEND 3\nREFUSED 5 at 29\n|1",
    ),
    (
        DDL,
        "INSERT INTO c.cust (id, name) VALUES (4, 'Cid');",
        "REFUSED 1 at 0\n|1",
    ),
    (DDL, "EXPLAIN SELECT id FROM c.cust;", "REFUSED 1 at 0\n|1"),
    (DDL, "EXEC v.p();", "REFUSED 2 v.p\n|1"),
];

#[test]
fn answers_worked_rows(rt: HostRuntime) -> Result<(), Fail> {
    let alloc = rt.alloc();
    for (ddl, script, wanted) in WORKED {
        assert_eq!(rt;
            run(&rt, alloc, WORDS, ddl, PEOPLE.as_slice(), script, NONE)?.as_str(),
            wanted,
            "at {script}"
        );
    }
    Ok(())
}

#[test]
fn refuses_starts(rt: HostRuntime) -> Result<(), Fail> {
    let alloc = rt.alloc();
    let bad = [
        [Cell::Num(1), Cell::Str("Ann")],
        [Cell::Num(2), Cell::Num(7)],
    ];
    let good = CUST.as_slice();
    let table: [(&str, &str, &[[Cell; 2]], &str); 7] = [
        ("go", DDL, good, "USAGE 1\n|2"),
        ("run one.ddl", DDL, good, "USAGE 3\n|2"),
        ("run one.ddl crm=csv:data x", DDL, good, "USAGE 4\n|2"),
        ("run one.ddl erp=csv:data", DDL, good, "FAULT maker\n|4"),
        (WORDS, "CREATE SERVER crm;", good, "DEPLOY 31 at 17\n|3"),
        (WORDS, "", good, "DEPLOY 33 crm\n|3"),
        (WORDS, DDL, bad.as_slice(), "DEPLOY 41 crm c.cust 2 2\n|3"),
    ];
    for (line, ddl, cust, wanted) in table {
        assert_eq!(rt;
            run(&rt, alloc, line, ddl, cust, "SELECT id FROM cust", NONE)?.as_str(),
            wanted,
            "at {wanted}"
        );
    }
    Ok(())
}

#[test]
fn ends_at_faults(rt: HostRuntime) -> Result<(), Fail> {
    let alloc = rt.alloc();
    let script = "SELECT id FROM cust WHERE id = 2; SELECT name FROM cust";
    let reply = "COLUMNS id\nROW 2\nEND 1\n";
    let table: [(Fails<'_>, &str, &str); 9] = [
        (
            Fails {
                maker: &[1],
                ..NONE
            },
            "",
            "FAULT maker\n|4",
        ),
        (Fails { lane: &[1], ..NONE }, "", "FAULT crm\n|4"),
        (Fails { lane: &[2], ..NONE }, "", "FAULT crm\n|4"),
        (Fails { lane: &[3], ..NONE }, reply, "FAULT crm\n|4"),
        (Fails { feed: &[1], ..NONE }, "", "FAULT feed\n|4"),
        (Fails { feed: &[2], ..NONE }, reply, "FAULT feed\n|4"),
        (
            Fails {
                feed: &[2],
                cuts: &[34],
                ..NONE
            },
            reply,
            "FAULT feed\n|4",
        ),
        (
            Fails {
                feed: &[3],
                cuts: &[16, 16],
                ..NONE
            },
            "",
            "FAULT feed\n|4",
        ),
        (Fails { sink: &[1], ..NONE }, "", "|4"),
    ];
    for (fails, first, last) in table {
        let wanted = format!(in alloc; "{first}{last}")?;
        assert_eq!(rt;
            run(&rt, alloc, WORDS, DDL, CUST.as_slice(), script, fails)?.as_str(),
            wanted.as_str()
        );
    }
    Ok(())
}

/// A statement whose reply is longer than what is written at once.
fn wide_statement(alloc: Global) -> Result<String, Fail> {
    let mut script = String::from_str(alloc, "SELECT name")?;
    script.push_str(",name".repeat(alloc, 2000)?.as_str())?;
    script.push_str(" FROM cust;")?;
    Ok(script)
}

#[test]
fn a_failed_write_leaves_a_prefix(rt: HostRuntime) -> Result<(), Fail> {
    let alloc = rt.alloc();
    let mut script = wide_statement(alloc)?;
    script.push_str("SELECT id FROM cust; SELECT none FROM cust")?;
    let whole = run(
        &rt,
        alloc,
        WORDS,
        DDL,
        CUST.as_slice(),
        script.as_str(),
        NONE,
    )?;
    let mut last_failed = 0;
    for call in 1..20u32 {
        let fails = Fails {
            sink: &[call],
            ..NONE
        };
        let ran = run(
            &rt,
            alloc,
            WORDS,
            DDL,
            CUST.as_slice(),
            script.as_str(),
            fails,
        )?;
        match ran.as_str().strip_suffix("|4") {
            Some(printed) => {
                last_failed = call;
                assert!(rt; whole.as_str().starts_with(printed));
            }
            None => assert_eq!(rt; ran.as_str(), whole.as_str()),
        }
    }
    assert!(rt; whole.as_str().ends_with("REFUSED 2 none\n|1"));
    assert!(rt; 5 < last_failed && last_failed < 19);
    for line in ["run one.ddl", WORDS] {
        let fails = Fails { sink: &[1], ..NONE };
        assert_eq!(rt;
            run(&rt, alloc, line, "", CUST.as_slice(), "", fails)?.as_str(),
            "|4"
        );
    }
    Ok(())
}

#[test]
fn a_script_ends_at_its_limit(rt: HostRuntime) -> Result<(), Fail> {
    let alloc = rt.alloc();
    let table: [(&str, usize, &str); 4] = [
        ("", 16_777_216, "|0"),
        ("", 16_777_217, "TOO LONG\n|6"),
        (
            "SELECT id FROM cust WHERE id = 2; SELECT name FROM cust",
            16_777_216,
            "COLUMNS id\nROW 2\nEND 1\nCOLUMNS name\nROW 'Ann'\nROW 'Bob'\nROW NULL\nEND 3\n|0",
        ),
        (
            "SELECT id FROM cust WHERE id = 2; SELECT name FROM cust",
            16_777_217,
            "COLUMNS id\nROW 2\nEND 1\nTOO LONG\n|6",
        ),
    ];
    for (front, length, wanted) in table {
        let mut script = String::from_str(alloc, front)?;
        script.push_str(" ".repeat(alloc, length - front.len())?.as_str())?;
        let script = Seq::from_vec(script.into_bytes());
        let parts = parts(alloc, DDL, CUST.as_slice(), &[])?;
        assert_eq!(rt;
            run_bytes(&rt, alloc, WORDS, parts, script, NONE)?.as_str(),
            wanted
        );
    }
    Ok(())
}

#[test]
fn nests_at_most_64_levels(rt: HostRuntime) -> Result<(), Fail> {
    let alloc = rt.alloc();
    let table: [(usize, &str); 3] = [
        (1, "COLUMNS a\nROW 1\nEND 1\n|0"),
        (64, "COLUMNS a\nROW 1\nEND 1\n|0"),
        (65, "REFUSED 1 at 71\n|1"),
    ];
    for (levels, wanted) in table {
        let open = "(".repeat(alloc, levels)?;
        let close = ")".repeat(alloc, levels)?;
        let script = format!(in alloc; "SELECT {open}1{close} AS a;")?;
        assert_eq!(rt;
            run(
                &rt,
                alloc,
                WORDS,
                DDL,
                CUST.as_slice(),
                script.as_str(),
                NONE
            )?
            .as_str(),
            wanted,
            "at {levels} levels"
        );
    }
    Ok(())
}

#[test]
fn a_ddl_ends_at_its_limit(rt: HostRuntime) -> Result<(), Fail> {
    let alloc = rt.alloc();
    let table: [(usize, &str); 2] = [
        (4_194_304, "DEPLOY 33 crm\n|3"),
        (4_194_305, "DEPLOY 31 at 4194304\n|3"),
    ];
    for (length, wanted) in table {
        let ddl = " ".repeat(alloc, length)?;
        assert_eq!(rt;
            run(&rt, alloc, WORDS, ddl.as_str(), CUST.as_slice(), "", NONE)?.as_str(),
            wanted,
            "at {length} spaces"
        );
    }
    Ok(())
}
