//! What no clause says: what the program prints over files as they lie in a folder.

use crate::files::FileMaker;
use crate::program::program;
use std::fs::{self, Files};
use std::test::Fail;
use std::thread::Threads;
use vdb_base::{MemFeed, MemSink, Seq};

const FOLDER: &str = "vdb_file_test";

const DDL_PATH: &str = "vdb_file_test/one.ddl";

const TABLE_PATH: &str = "vdb_file_test/cust.csv";

const DDL: &[u8] =
    b"CREATE SERVER crm FOREIGN DATA WRAPPER csv;CREATE SCHEMA c SERVER crm;SET SCHEMA c;CREATE FOREIGN TABLE cust (id integer, name string);";

const COLUMN_TWICE: &[u8] =
    b"CREATE SERVER crm FOREIGN DATA WRAPPER csv;CREATE SCHEMA c SERVER crm;SET SCHEMA c;CREATE FOREIGN TABLE cust (id integer, id integer);";

/// The table and its columns have other names than the file and its columns.
const RENAMED: &[u8] =
    b"CREATE SERVER crm FOREIGN DATA WRAPPER csv;CREATE SCHEMA c SERVER crm;SET SCHEMA c;CREATE FOREIGN TABLE people (number integer OPTIONS (NAMEINSOURCE 'ID'), called string OPTIONS (NAMEINSOURCE 'name')) OPTIONS (NAMEINSOURCE 'cust');";

/// Two tables of one file, with other columns each.
const SHARED: &[u8] =
    b"CREATE SERVER crm FOREIGN DATA WRAPPER csv;CREATE SCHEMA c SERVER crm;SET SCHEMA c;CREATE FOREIGN TABLE cust (id integer, name string);CREATE FOREIGN TABLE again (called string OPTIONS (NAMEINSOURCE 'NAME'), number integer OPTIONS (NAMEINSOURCE 'id'), other integer OPTIONS (NAMEINSOURCE 'ID')) OPTIONS (NAMEINSOURCE 'cust');";

/// The table's file would lie outside of the folder.
const OUTSIDE: &[u8] =
    b"CREATE SERVER crm FOREIGN DATA WRAPPER csv;CREATE SCHEMA c SERVER crm;SET SCHEMA c;CREATE FOREIGN TABLE cust (id integer, name string) OPTIONS (NAMEINSOURCE '../vdb_file_test/cust');";

/// The table's id is its key.
const KEYED: &[u8] =
    b"CREATE SERVER crm FOREIGN DATA WRAPPER csv;CREATE SCHEMA c SERVER crm;SET SCHEMA c;CREATE FOREIGN TABLE cust (id integer NOT NULL, name string, PRIMARY KEY (id));";

const PRICES: &[u8] =
    b"CREATE SERVER ref FOREIGN DATA WRAPPER csv;CREATE SCHEMA r SERVER ref;SET SCHEMA r;CREATE FOREIGN TABLE price (item integer, cents long) OPTIONS (NAMEINSOURCE 'cust');";

const NO_TEXT: &[u8] =
    b"CREATE SERVER \"\xff\" FOREIGN DATA WRAPPER csv;CREATE SCHEMA c SERVER crm;SET SCHEMA c;CREATE FOREIGN TABLE cust (id integer);";

const CUST: &[u8] = b"id,name\n1,Ann\n2,Bob\n3,Bob\n";

const SCRIPT: &str = "SELECT id, name FROM c.cust WHERE name = 'Bob';";

/// The files of a run; where one is `None`, it isn't there.
#[derive(Clone, Copy)]
struct Given {
    ddl: Option<&'static [u8]>,
    table: Option<&'static [u8]>,
    connection: &'static str,
    script: &'static str,
}

/// What a run over the real maker prints, and its status.
fn run<R: Files + AllocGlobal + Threads + Sync>(rt: &R, given: &Given) -> Result<String, Fail> {
    let alloc = rt.alloc();
    let _ = fs::remove_dir_all(rt, FOLDER);
    fs::create_dir(rt, FOLDER)?;
    if let Some(bytes) = given.ddl {
        fs::write(rt, DDL_PATH, bytes)?;
    }
    if let Some(bytes) = given.table {
        fs::write(rt, TABLE_PATH, bytes)?;
    }
    let mut words = Vec::new(alloc);
    for word in ["run", DDL_PATH, given.connection] {
        words.push(String::from_str(alloc, word)?)?;
    }
    let mut script = Seq::new(alloc);
    for b in given.script.as_bytes() {
        script.push(*b)?;
    }
    let mut maker = FileMaker::new(rt);
    let mut feed = MemFeed::new(script, Seq::new(alloc), Seq::new(alloc));
    let mut sink = MemSink::new(alloc, Seq::new(alloc));
    let status = program(rt, alloc, &words, &mut maker, &mut feed, &mut sink);
    fs::remove_dir_all(rt, FOLDER)?;
    let Ok(printed) = std::str::from_utf8(sink.bytes()) else {
        return Err("what was printed is no text".into());
    };
    Ok(format!(in alloc; "{printed}|{status}")?)
}

#[test]
fn reads_files(rt: HostRuntime) -> Result<(), Fail> {
    let whole = Given {
        ddl: Some(DDL),
        table: Some(CUST),
        connection: "crm=csv:vdb_file_test",
        script: SCRIPT,
    };
    let refused = "DEPLOY 42 crm c.cust\n|3";
    let table: [(Given, &str); 17] = [
        (
            Given { ..whole },
            "COLUMNS id,name\nROW 2,'Bob'\nROW 3,'Bob'\nEND 2\n|0",
        ),
        (
            Given {
                table: Some(b"NAME,other,Id\nBob,,7\n"),
                ..whole
            },
            "COLUMNS id,name\nROW 7,'Bob'\nEND 1\n|0",
        ),
        (
            Given {
                table: Some(b"id,name\n"),
                ..whole
            },
            "COLUMNS id,name\nEND 0\n|0",
        ),
        (
            Given {
                table: Some(b"id,name,id\n1,Ann,1\n"),
                ..whole
            },
            refused,
        ),
        (
            Given {
                table: Some(b"id,name\n1,Ann,1\n"),
                ..whole
            },
            refused,
        ),
        (
            Given {
                table: Some(b"id,name\n1,Ann\nx,Bob\n"),
                ..whole
            },
            "DEPLOY 41 crm c.cust 2 1\n|3",
        ),
        (
            Given {
                ddl: Some(PRICES),
                table: Some(b"item,cents\n1,100\n2,x\n"),
                connection: "ref=csv:vdb_file_test",
                ..whole
            },
            "DEPLOY 41 ref r.price 2 2\n|3",
        ),
        (
            Given {
                ddl: Some(KEYED),
                table: Some(b"name,id\nAnn,1\nBob,\n"),
                ..whole
            },
            "DEPLOY 41 crm c.cust 2 1\n|3",
        ),
        (
            Given {
                ddl: Some(KEYED),
                table: Some(b"id,name\n1,Ann\n1,Bob\n"),
                ..whole
            },
            refused,
        ),
        (
            Given {
                table: None,
                ..whole
            },
            refused,
        ),
        (
            Given {
                connection: "crm=csv:vdb_file_test/none",
                ..whole
            },
            refused,
        ),
        (
            Given {
                ddl: Some(OUTSIDE),
                ..whole
            },
            refused,
        ),
        (Given { ddl: None, ..whole }, "FAULT maker\n|4"),
        (
            Given {
                ddl: Some(NO_TEXT),
                ..whole
            },
            "DEPLOY 31 at 14\n|3",
        ),
        (
            Given {
                ddl: Some(COLUMN_TWICE),
                ..whole
            },
            "DEPLOY 32 id\n|3",
        ),
        (
            Given {
                ddl: Some(RENAMED),
                script: "SELECT called, number FROM c.people WHERE number < 3;",
                ..whole
            },
            "COLUMNS called,number\nROW 'Ann',1\nROW 'Bob',2\nEND 2\n|0",
        ),
        (
            Given {
                ddl: Some(SHARED),
                script: "SELECT a.called, a.other, b.name FROM c.again a JOIN c.cust b ON a.number = b.id WHERE b.id = 1;",
                ..whole
            },
            "COLUMNS called,other,name\nROW 'Ann',1,'Ann'\nEND 1\n|0",
        ),
    ];
    for (given, wanted) in table {
        assert_eq!(rt; run(&rt, &given)?.as_str(), wanted);
    }
    Ok(())
}
