//! What no clause says: what an engine over three stores replies, printed.

ghost use Rattle.std.specs.Prelude.{IsTrue, IfOk};
ghost use Rattle.resource.specs.MemResource.{mem_told};
ghost use Rattle.vdb_session.specs.Lanes.{are_apart, are_here, names_of};

use crate::program_tests::{Cell, PLAIN, row, seq};
use resource::{Lane, Lanes, MemResource, StoredTable, Tables};
use std::alloc::Global;
use std::test::Fail;
use vdb_base::{MemSink, NoMemory, Seq, Text};
use vdb_lines::print_deploy;
use vdb_model::{Kind, Reply};
use vdb_session::{Answer, Engine, Parts, StartFault, are_apart, are_here, print_reply};

/// Customers, orders and a price list on three servers, with views over them.
const SHOP: &str = "CREATE DATABASE shop; USE DATABASE shop;
CREATE SERVER crm FOREIGN DATA WRAPPER mem; CREATE SERVER ord FOREIGN DATA WRAPPER mem;
CREATE SERVER ref FOREIGN DATA WRAPPER csv;
CREATE SCHEMA c SERVER crm; CREATE SCHEMA o SERVER ord; CREATE SCHEMA r SERVER ref;
CREATE VIRTUAL SCHEMA v;
SET SCHEMA c;
CREATE FOREIGN TABLE cust (id integer NOT NULL, name string, PRIMARY KEY (id));
SET SCHEMA o;
CREATE FOREIGN TABLE orders (id integer NOT NULL, cust integer, qty integer, PRIMARY KEY (id));
SET SCHEMA r;
CREATE FOREIGN TABLE price (item string, cents long, vip boolean);
CREATE FOREIGN TABLE stock (item string, place string);
CREATE FOREIGN TABLE shelf (place string, floor integer);
SET SCHEMA v;
CREATE VIEW ids AS SELECT id FROM c.cust UNION ALL SELECT cust FROM o.orders;
CREATE VIEW known AS SELECT id FROM v.ids WHERE id IS NOT NULL;
CREATE VIEW lj AS SELECT c.id AS cid, o.qty AS qty FROM c.cust c LEFT JOIN o.orders o ON o.cust = c.id;
CREATE VIEW pair AS SELECT c.id AS cid, c.name AS name, o.id AS oid, o.qty AS qty
  FROM c.cust c JOIN o.orders o ON o.cust = c.id;
CREATE VIEW names AS SELECT id AS nr, name FROM c.cust WHERE id < 100;
CREATE VIEW dnames AS SELECT DISTINCT name FROM c.cust;";

const CUST: [&[Cell]; 3] = [
    &[Cell::Num(1), Cell::Str("Ann")],
    &[Cell::Num(2), Cell::Str("Bob")],
    &[Cell::Num(3), Cell::Null],
];

const ORDERS: [&[Cell]; 4] = [
    &[Cell::Num(10), Cell::Num(1), Cell::Num(5)],
    &[Cell::Num(11), Cell::Num(1), Cell::Num(7)],
    &[Cell::Num(12), Cell::Null, Cell::Num(1)],
    &[Cell::Num(13), Cell::Num(2), Cell::Num(0)],
];

const PRICE: [&[Cell]; 3] = [
    &[Cell::Str("pen"), Cell::Num(120), Cell::Bool(true)],
    &[Cell::Str("ink"), Cell::Num(300), Cell::Bool(false)],
    &[Cell::Str("cap, red"), Cell::Null, Cell::Bool(true)],
];

const STOCK: [&[Cell]; 4] = [
    &[Cell::Str("pen"), Cell::Str("A")],
    &[Cell::Str("ink"), Cell::Str("B")],
    &[Cell::Str("pen"), Cell::Str("B")],
    &[Cell::Str("nib"), Cell::Str("C")],
];

const SHELF: [&[Cell]; 3] = [
    &[Cell::Str("A"), Cell::Num(1)],
    &[Cell::Str("B"), Cell::Num(2)],
    &[Cell::Str("C"), Cell::Num(0)],
];

/// Statements, and what is printed for each over the shop.
const ROWS: [(&str, &str); 15] = [
    (
        "SELECT id FROM v.known ORDER BY id",
        "COLUMNS id\nROW 1\nROW 1\nROW 1\nROW 2\nROW 2\nROW 3\nEND 6\n",
    ),
    (
        "SELECT c.id, o.id FROM c.cust c LEFT JOIN o.orders o ON o.cust = c.id AND c.id = 1 ORDER BY 1, 2",
        "COLUMNS id,id\nROW 1,10\nROW 1,11\nROW 2,NULL\nROW 3,NULL\nEND 4\n",
    ),
    (
        "SELECT cid, qty FROM v.lj WHERE qty >= 0 ORDER BY cid, qty",
        "COLUMNS cid,qty\nROW 1,5\nROW 1,7\nROW 2,0\nEND 3\n",
    ),
    (
        "SELECT qty + 2147483647 AS big FROM o.orders WHERE id = 10",
        "COLUMNS big\nROW 2147483652\nEND 1\n",
    ),
    (
        "SELECT (qty + 1) * 9223372036854775807 AS b FROM o.orders WHERE id = 10",
        "COLUMNS b\nROW 55340232221128654842\nEND 1\n",
    ),
    ("SELECT id + 1 + 1 + 1 FROM c.cust", "REFUSED 6 at 18\n"),
    ("SELECT 1.5 FROM c.cust", "REFUSED 5 at 7\n"),
    (
        "SELECT cust, COUNT(*) AS n, SUM(qty) AS s FROM o.orders GROUP BY cust ORDER BY cust",
        "COLUMNS cust,n,s\nROW NULL,1,1\nROW 1,2,12\nROW 2,1,0\nEND 3\n",
    ),
    (
        "SELECT COUNT(*) AS n, SUM(qty) AS s FROM o.orders WHERE id > 99",
        "COLUMNS n,s\nROW 0,NULL\nEND 1\n",
    ),
    (
        "SELECT DISTINCT cust FROM o.orders ORDER BY cust",
        "COLUMNS cust\nROW NULL\nROW 1\nROW 2\nEND 3\n",
    ),
    ("SELECT FROM c.cust", "REFUSED 1 at 7\n"),
    ("SELECT nosuch FROM c.cust", "REFUSED 2 nosuch\n"),
    ("SELECT id FROM c.cust, o.orders", "REFUSED 3 id\n"),
    ("SELECT id FROM c.cust WHERE name = 1", "REFUSED 4 at 33\n"),
    (
        "SELECT p.item, s.place, h.floor FROM r.price p JOIN r.stock s ON s.item = p.item JOIN r.shelf h ON h.place = s.place ORDER BY 1, 2",
        "COLUMNS item,place,floor\nROW 'ink','B',2\nROW 'pen','A',1\nROW 'pen','B',2\nEND 3\n",
    ),
];

fn table(alloc: Global, source: &str, rows: &[&[Cell]]) -> Result<StoredTable, NoMemory> {
    let mut made = Seq::new(alloc);
    for cells in rows {
        made.push(row(alloc, cells)?)?;
    }
    Ok(StoredTable {
        source: Text::from_str(alloc, source)?,
        rows: made,
    })
}

/// The price list's three tables.
fn price_list(alloc: Global) -> Result<Tables, NoMemory> {
    let mut tables = Seq::new(alloc);
    tables.push(table(alloc, "price", PRICE.as_slice())?)?;
    tables.push(table(alloc, "stock", STOCK.as_slice())?)?;
    tables.push(table(alloc, "shelf", SHELF.as_slice())?)?;
    Ok(tables)
}

fn one_table(alloc: Global, source: &str, rows: &[&[Cell]]) -> Result<Tables, NoMemory> {
    let mut tables = Seq::new(alloc);
    tables.push(table(alloc, source, rows)?)?;
    Ok(tables)
}

/// A lane whose calls fail where their numbers are listed.
fn lane(
    alloc: Global,
    name: &str,
    kind: Kind,
    tables: Tables,
    fails: &[u32],
) -> Result<Lane<MemResource>, NoMemory> {
    let store = MemResource::new(alloc, tables, PLAIN, seq(alloc, fails)?);
    Ok(Lane::new(Text::from_str(alloc, name)?, kind, store))
}

/// The shop's three lanes; the calls of the orders' fail where they are listed.
fn shop(alloc: Global, ddl: &str, fails: &[u32]) -> Result<Parts<MemResource>, Fail>
    ensures apart { IfOk result (λ parts. IsTrue (are_apart (names_of parts.lanes))) }
    ensures here { IfOk result (λ parts. IsTrue (are_here mem_told parts.lanes)) }
{
    let customers = one_table(alloc, "cust", CUST.as_slice())?;
    let orders = one_table(alloc, "orders", ORDERS.as_slice())?;
    let prices = price_list(alloc)?;
    let mut lanes = Vec::new(alloc);
    lanes.push(lane(alloc, "crm", Kind::Mem, customers, &[])?)?;
    lanes.push(lane(alloc, "ord", Kind::Mem, orders, fails)?)?;
    lanes.push(lane(alloc, "ref", Kind::Csv, prices, &[])?)?;
    let lanes = Lanes::from_vec(lanes);
    if !are_apart(&lanes) {
        return Err("two lanes have one name".into());
    }
    if !are_here(&lanes) {
        return Err("a lane is lost".into());
    }
    Ok(Parts {
        ddl: seq(alloc, ddl.as_bytes())?,
        lanes,
    })
}

fn text_of(alloc: Global, sink: &MemSink) -> Result<String, Fail> {
    match std::str::from_utf8(sink.bytes()) {
        Ok(text) => Ok(String::from_str(alloc, text)?),
        Err(_) => Err("what was printed is no text".into()),
    }
}

fn reply_lines(alloc: Global, reply: &Reply) -> Result<String, Fail> {
    let mut sink = MemSink::new(alloc, Seq::new(alloc));
    if print_reply(reply, &mut sink).is_err() {
        return Err("a write failed".into());
    }
    text_of(alloc, &sink)
}

fn fault_line(alloc: Global, fault: &StartFault) -> Result<String, Fail> {
    let StartFault::Refused(fault) = fault else {
        return Err("the start failed".into());
    };
    let mut sink = MemSink::new(alloc, Seq::new(alloc));
    if print_deploy(fault, &mut sink).is_err() {
        return Err("a write failed".into());
    }
    text_of(alloc, &sink)
}

/// What is printed for a statement over the shop, or why it doesn't start.
fn printed(alloc: Global, ddl: &str, statement: &str) -> Result<String, Fail> {
    let mut engine = match Engine::start(shop(alloc, ddl, &[])?, alloc) {
        Ok(engine) => engine,
        Err(refused) => return fault_line(alloc, &refused.fault),
    };
    match engine.answer(alloc, statement.as_bytes(), 0) {
        Answer::Reply(reply) => reply_lines(alloc, &reply),
        Answer::Fault { lane: _ } => Err("a lane failed".into()),
    }
}

#[test]
fn answers_over_three_stores(rt: HostRuntime) -> Result<(), Fail> {
    for (statement, wanted) in ROWS {
        assert_eq!(rt;
            printed(rt.alloc(), SHOP, statement)?.as_str(),
            wanted,
            "at {statement}"
        );
    }
    Ok(())
}

#[test]
fn breaks_a_tie_either_way(rt: HostRuntime) -> Result<(), Fail> {
    let query = "SELECT id, cust FROM o.orders ORDER BY cust DESC LIMIT 2";
    let lines = printed(rt.alloc(), SHOP, query)?;
    assert!(rt;
        lines
            .as_str()
            .starts_with("COLUMNS id,cust\nROW 13,2\nROW 1")
    );
    assert!(rt; lines.as_str().ends_with(",1\nEND 2\n"));
    Ok(())
}

/// The shop with views of which each joins the one before it with itself.
fn doubled(alloc: Global, views: u32) -> Result<String, Fail> {
    let mut ddl = String::from_str(alloc, SHOP)?;
    ddl.push_str("CREATE VIEW d0 AS SELECT id FROM c.cust;")?;
    for below in 0..views {
        let view = format!(in alloc;
            "CREATE VIEW d{} AS SELECT a.id FROM v.d{below} a JOIN v.d{below} b ON a.id = b.id;",
            below + 1
        )?;
        ddl.push_str(view.as_str())?;
    }
    Ok(ddl)
}

#[test]
fn refuses_what_is_too_large(rt: HostRuntime) -> Result<(), Fail> {
    let alloc = rt.alloc();
    let ten = doubled(alloc, 10)?;
    let query = "SELECT a.id FROM v.d10 a, v.d10 b";
    assert_eq!(rt;
        printed(alloc, ten.as_str(), query)?.as_str(),
        "REFUSED 18 8190 24\n"
    );
    let eleven = doubled(alloc, 11)?;
    assert_eq!(rt;
        printed(alloc, eleven.as_str(), query)?.as_str(),
        "DEPLOY 39 v.d11 8190\n"
    );
    Ok(())
}

#[test]
fn a_failed_lane_breaks_the_engine(rt: HostRuntime) -> Result<(), Fail> {
    let alloc = rt.alloc();
    let Ok(mut engine) = Engine::start(shop(alloc, SHOP, &[2])?, alloc) else {
        return Err("the start was refused".into());
    };
    assert!(rt; !engine.is_broken());
    let answer = engine.answer(alloc, b"SELECT id FROM o.orders".as_slice(), 0);
    assert!(rt; matches!(&answer, Answer::Fault { lane: 1 }));
    assert!(rt; engine.is_broken());
    assert_eq!(rt; engine.catalog().views().len(), 6);
    assert_eq!(rt; engine.into_parts().lanes.len(), 3);
    Ok(())
}
