//! What no clause says: that the printed lines are those that a reader expects.

use crate::{print_deploy, print_line, print_named, print_numbered, print_reply};
use std::alloc::Global;
use std::test::Fail;
use vdb_base::{MemSink, NoMemory, Row, Rows, Seq, Text, Texts, Value};
use vdb_model::{DeployFault, Refusal, Replies, Reply, dotted};

const REPLY_LINES: &str = "COLUMNS id,\"first name\",\"a\"\"b\"
ROW 1,'it''s',NULL
ROW -2,TRUE,FALSE
END 2
COLUMNS
ROW
END 1
UPDATED 18446744073709551615
DONE
STARTED
COMMITTED
ROLLED BACK
ASK s1 t1
ASK s2
END 7
MEMORY
REFUSED 1 at 12
REFUSED 2 shop.\"my table\"
REFUSED 2
REFUSED 14 'it''s full'
REFUSED 15
REFUSED 16 none
REFUSED 17 3
REFUSED 18 400 20
REFUSED 19 s1 80 10
";

fn texts(alloc: Global, items: &[&str]) -> Result<Texts, NoMemory> {
    let mut made = Seq::new(alloc);
    for item in items {
        made.push(Text::from_str(alloc, item)?)?;
    }
    Ok(made)
}

fn rows(alloc: Global) -> Result<Rows, NoMemory> {
    let mut first: Row = Seq::new(alloc);
    first.push(Value::Num(1))?;
    first.push(Value::Str(Text::from_str(alloc, "it's")?))?;
    first.push(Value::Null)?;
    let mut second: Row = Seq::new(alloc);
    second.push(Value::Num(-2))?;
    second.push(Value::Bool(true))?;
    second.push(Value::Bool(false))?;
    let mut rows = Seq::new(alloc);
    rows.push(first)?;
    rows.push(second)?;
    Ok(rows)
}

fn replies(alloc: Global) -> Result<Replies, NoMemory> {
    let mut replies = Seq::new(alloc);
    replies.push(Reply::Rows {
        names: texts(alloc, &["id", "first name", "a\"b"])?,
        rows: rows(alloc)?,
    })?;
    let mut empty = Seq::new(alloc);
    empty.push(Seq::new(alloc))?;
    replies.push(Reply::Rows {
        names: Seq::new(alloc),
        rows: empty,
    })?;
    replies.push(Reply::Updated(u64::MAX))?;
    replies.push(Reply::Done)?;
    replies.push(Reply::Started)?;
    replies.push(Reply::Committed)?;
    replies.push(Reply::RolledBack)?;
    replies.push(Reply::Asked {
        asks: texts(alloc, &["s1 t1", "s2"])?,
        count: 7,
    })?;
    replies.push(Reply::Memory)?;
    Ok(replies)
}

fn refusals(alloc: Global) -> Result<Replies, NoMemory> {
    let schema = Text::from_str(alloc, "shop")?;
    let table = Text::from_str(alloc, "my table")?;
    let mut replies = Seq::new(alloc);
    for refusal in [
        Refusal::Syntax { at: 12 },
        Refusal::Unknown {
            name: dotted(alloc, &schema, &table)?,
        },
        Refusal::Unknown {
            name: Text::new(alloc),
        },
        Refusal::Raised {
            text: Text::from_str(alloc, "it's full")?,
        },
        Refusal::BudgetSpent,
        Refusal::Transaction { opened: false },
        Refusal::Doomed { number: 3 },
        Refusal::TooLarge {
            nodes: 400,
            depth: 20,
        },
        Refusal::LogFull {
            server: Text::from_str(alloc, "s1")?,
            needed: 80,
            left: 10,
        },
    ] {
        replies.push(Reply::Refused(refusal))?;
    }
    Ok(replies)
}

#[test]
fn replies_are_printed(rt: HostRuntime) -> Result<(), Fail> {
    let alloc = rt.alloc();
    let mut sink = MemSink::new(alloc, Seq::new(alloc));
    for reply in replies(alloc)?.as_slice() {
        assert!(rt; print_reply(reply, &mut sink).is_ok());
    }
    for reply in refusals(alloc)?.as_slice() {
        assert!(rt; print_reply(reply, &mut sink).is_ok());
    }
    assert!(rt; sink.bytes() == REPLY_LINES.as_bytes());
    Ok(())
}

#[test]
fn last_lines_are_printed(rt: HostRuntime) -> Result<(), Fail> {
    let alloc = rt.alloc();
    let mut sink = MemSink::new(alloc, Seq::new(alloc));
    let fault = DeployFault::BadStore {
        server: Text::from_str(alloc, "s1")?,
        table: None,
    };
    assert!(rt; print_deploy(&fault, &mut sink).is_ok());
    assert!(rt; print_line(b"MEMORY".as_slice(), &mut sink).is_ok());
    assert!(rt; print_numbered(b"USAGE ".as_slice(), 3, &mut sink).is_ok());
    let name = Text::from_str(alloc, "the lane")?;
    assert!(rt; print_named(b"FAULT ".as_slice(), &name, &mut sink).is_ok());
    assert!(rt;
        sink.bytes() == b"DEPLOY 42 s1 0\nMEMORY\nUSAGE 3\nFAULT \"the lane\"\n".as_slice()
    );
    Ok(())
}
