//! Deployments over worked DDL: what deploys, or the fault with its name or place.

use crate::worked::{FRONT, connections, tower};
use metadata::{DeployRefusal, deploy};
use std::alloc::Global;
use std::test::Fail;
use vdb_base::NoMemory;
use vdb_ddl::read_ddl;
use vdb_model::DeployFault;

/// A fault's number, and its name or its place.
fn shown(fault: &DeployFault) -> (u64, &str, u64) {
    match fault {
        DeployFault::Duplicate { name } => (32, name.as_str(), 0),
        DeployFault::Unknown { name } => (33, name.as_str(), 0),
        DeployFault::FractionalType { at } => (34, "", *at),
        DeployFault::BadOption { at } => (35, "", *at),
        DeployFault::NoConnection { server } => (36, server.as_str(), 0),
        DeployFault::WrongKind { name } => (37, name.as_str(), 0),
        DeployFault::Columns { name } => (38, name.as_str(), 0),
        DeployFault::Limit { name, count } => (39, name.as_str(), *count),
        DeployFault::Body { name, number } => (44, name.as_str(), *number),
        _ => (1, "another", 0),
    }
}

const DEPLOYED: (u64, &str, u64) = (0, "", 0);

/// Whether this is answered to a DDL over the connection.
fn is_answer(alloc: Global, ddl: &[u8], wanted: (u64, &str, u64)) -> Result<bool, NoMemory> {
    let Ok(items) = read_ddl(alloc, ddl) else {
        return Ok(false);
    };
    let conns = connections(alloc)?;
    match deploy(alloc, &items, &conns) {
        Ok(_) => Ok(wanted == DEPLOYED),
        Err(DeployRefusal::Memory) => Err(NoMemory),
        Err(DeployRefusal::Refused(fault)) => Ok(shown(&fault) == wanted),
    }
}

#[test]
fn deploys_or_refuses(rt: HostRuntime) -> Result<(), Fail> {
    let alloc = rt.alloc();
    let table: [(&[u8], (u64, &str, u64)); 30] = [
        (b"", (33, "s", 0)),
        (b"CREATE SERVER s FOREIGN DATA WRAPPER mem;", DEPLOYED),
        (
            b"CREATE DATABASE d;USE DATABASE d;CREATE SERVER s FOREIGN DATA WRAPPER mem;CREATE SCHEMA a SERVER s;SET SCHEMA a;CREATE FOREIGN TABLE t (x double);",
            (34, "", 138),
        ),
        (b"CREATE DATABASE d;CREATE DATABASE e;", (32, "e", 0)),
        (b"USE DATABASE d;", (33, "d", 0)),
        (
            b"CREATE SERVER s FOREIGN DATA WRAPPER nosuch;",
            (33, "nosuch", 0),
        ),
        (b"CREATE SERVER s FOREIGN DATA WRAPPER csv;", (37, "s", 0)),
        (b"CREATE SERVER q FOREIGN DATA WRAPPER mem;", (36, "q", 0)),
        (
            b"CREATE SERVER s FOREIGN DATA WRAPPER mem;CREATE SERVER s FOREIGN DATA WRAPPER mem;",
            (32, "s", 0),
        ),
        (
            b"CREATE SERVER s FOREIGN DATA WRAPPER mem OPTIONS (MaxInCriteriaSize 1001)",
            (35, "", 68),
        ),
        (
            b"CREATE SERVER s FOREIGN DATA WRAPPER mem OPTIONS (MaxInCriteriaSize '0040', Without 'OrderBy,InCriteria', other 'x')",
            DEPLOYED,
        ),
        (
            b"CREATE SERVER s FOREIGN DATA WRAPPER mem OPTIONS (Without 'OrderBy, InCriteria')",
            (35, "", 58),
        ),
        (
            b"CREATE SERVER s FOREIGN DATA WRAPPER mem OPTIONS (Without 'writes')",
            (35, "", 58),
        ),
        (
            b"CREATE SERVER s FOREIGN DATA WRAPPER mem;CREATE SCHEMA a SERVER q;",
            (33, "q", 0),
        ),
        (
            b"CREATE SERVER s FOREIGN DATA WRAPPER mem;CREATE SCHEMA a SERVER s;CREATE VIRTUAL SCHEMA a;",
            (32, "a", 0),
        ),
        (
            b"CREATE SERVER s FOREIGN DATA WRAPPER mem;SET SCHEMA a",
            (33, "a", 0),
        ),
        (
            b"CREATE SERVER s FOREIGN DATA WRAPPER mem;CREATE FOREIGN TABLE t (x int)",
            (33, "t", 0),
        ),
        (
            b"CREATE SERVER s FOREIGN DATA WRAPPER mem;CREATE VIRTUAL SCHEMA v;SET SCHEMA v;CREATE FOREIGN TABLE t (x nosuch)",
            (33, "nosuch", 0),
        ),
        (
            b"CREATE SERVER s FOREIGN DATA WRAPPER mem;CREATE VIRTUAL SCHEMA v;SET SCHEMA v;CREATE FOREIGN TABLE t (x real)",
            (37, "v.t", 0),
        ),
        (
            b"CREATE SERVER s FOREIGN DATA WRAPPER mem;CREATE SCHEMA a SERVER s;SET SCHEMA a;CREATE FOREIGN TABLE t (x real, x int)",
            (32, "x", 0),
        ),
        (
            b"CREATE SERVER s FOREIGN DATA WRAPPER mem;CREATE SCHEMA a SERVER s;SET SCHEMA a;CREATE FOREIGN TABLE t (x int, y int OPTIONS (NAMEINSOURCE 'X'))",
            (32, "y", 0),
        ),
        (
            b"CREATE SERVER s FOREIGN DATA WRAPPER mem;CREATE SCHEMA a SERVER s;SET SCHEMA a;CREATE FOREIGN TABLE t (x int, PRIMARY KEY (x), PRIMARY KEY (x))",
            (32, "a.t", 0),
        ),
        (
            b"CREATE SERVER s FOREIGN DATA WRAPPER mem;CREATE SCHEMA a SERVER s;SET SCHEMA a;CREATE FOREIGN TABLE t (x int, PRIMARY KEY (y))",
            (33, "y", 0),
        ),
        (
            b"CREATE SERVER s FOREIGN DATA WRAPPER mem;CREATE SCHEMA a SERVER s;SET SCHEMA a;CREATE FOREIGN TABLE t (x real OPTIONS (NAMEINSOURCE ''))",
            (34, "", 105),
        ),
        (
            b"CREATE SERVER s FOREIGN DATA WRAPPER mem;CREATE SCHEMA a SERVER s;SET SCHEMA a;CREATE FOREIGN TABLE t (x int OPTIONS (NAMEINSOURCE '')) OPTIONS (UPDATABLE 1)",
            (35, "", 131),
        ),
        (
            b"CREATE SERVER s FOREIGN DATA WRAPPER mem;CREATE SCHEMA a SERVER s;SET SCHEMA a;CREATE FOREIGN TABLE t (x int) OPTIONS (UPDATABLE 1, UPDATABLE 'true')",
            (35, "", 129),
        ),
        (
            b"CREATE SERVER s FOREIGN DATA WRAPPER mem;CREATE SCHEMA a SERVER s;SET SCHEMA a;CREATE FOREIGN TABLE t (x int);CREATE FOREIGN TABLE u (x int) OPTIONS (NAMEINSOURCE 'T')",
            (32, "a.u", 0),
        ),
        (
            b"CREATE SERVER s FOREIGN DATA WRAPPER mem;CREATE SCHEMA a SERVER s;SET SCHEMA a;CREATE FOREIGN TABLE t (x int NOT NULL, y varchar(9), PRIMARY KEY (x)) OPTIONS (UPDATABLE 'False', CARDINALITY 5);CREATE FOREIGN TABLE \"T t\" (x bigint, z boolean, w biginteger)",
            DEPLOYED,
        ),
        (
            b"CREATE SERVER s FOREIGN DATA WRAPPER mem;CREATE SCHEMA a SERVER s;SET SCHEMA a;CREATE VIEW w AS SELECT 1",
            (37, "a.w", 0),
        ),
        (
            b"CREATE SERVER s FOREIGN DATA WRAPPER mem;CREATE VIRTUAL SCHEMA v;SET SCHEMA v;CREATE VIEW w (n real) AS SELECT 1",
            (34, "", 95),
        ),
    ];
    for (case, (ddl, wanted)) in table.iter().enumerate() {
        assert!(rt; is_answer(alloc, ddl, *wanted)?, "case {case}");
    }
    Ok(())
}

/// Whether this is answered to views over a table of customers.
fn is_answer_to_views(
    alloc: Global,
    views: &[u8],
    wanted: (u64, &str, u64),
) -> Result<bool, NoMemory> {
    let mut ddl = Vec::from_slice(alloc, FRONT)?;
    ddl.extend_from_slice(views)?;
    is_answer(alloc, ddl.as_slice(), wanted)
}

#[test]
fn deploys_views(rt: HostRuntime) -> Result<(), Fail> {
    let alloc = rt.alloc();
    let table: [(&[u8], (u64, &str, u64)); 13] = [
        (
            b"CREATE VIEW a AS SELECT id AS n, name AS w FROM c.cust;CREATE VIEW b AS SELECT x.n, y.n AS m FROM v.a x JOIN v.a y ON x.w = y.w;",
            DEPLOYED,
        ),
        (
            b"CREATE VIEW b AS SELECT n FROM v.a;CREATE VIEW a AS SELECT id AS n FROM c.cust;",
            (44, "v.b", 2),
        ),
        (
            b"CREATE VIEW a AS SELECT id FROM c.cust, c.cust y;",
            (44, "v.a", 3),
        ),
        (
            b"CREATE VIEW a AS SELECT id FROM c.cust WHERE name = 1;",
            (44, "v.a", 4),
        ),
        (b"CREATE VIEW a AS SELECT 1.5;", (44, "v.a", 5)),
        (
            b"CREATE VIEW a AS SELECT id, id FROM c.cust;",
            (38, "v.a", 0),
        ),
        (
            b"CREATE VIEW a (n) AS SELECT id, name FROM c.cust;",
            (38, "v.a", 0),
        ),
        (
            b"CREATE VIEW a (n, m) AS SELECT id, id FROM c.cust;",
            DEPLOYED,
        ),
        (
            b"CREATE VIEW a (n long) AS SELECT id FROM c.cust;",
            DEPLOYED,
        ),
        (
            b"CREATE VIEW a (n string) AS SELECT id FROM c.cust;",
            (38, "v.a", 0),
        ),
        (
            b"CREATE VIEW a (n long) AS SELECT id FROM c.cust;CREATE VIEW b (m integer) AS SELECT n FROM a;",
            (38, "v.b", 0),
        ),
        (
            b"CREATE VIEW a AS SELECT id FROM c.cust;CREATE VIEW a AS SELECT nosuch;",
            (32, "v.a", 0),
        ),
        (
            b"CREATE VIEW a (n nosuch) AS SELECT 1.5;",
            (33, "nosuch", 0),
        ),
    ];
    for (case, (views, wanted)) in table.iter().enumerate() {
        assert!(rt; is_answer_to_views(alloc, views, *wanted)?, "case {case}");
    }
    Ok(())
}

#[test]
fn keeps_limits(rt: HostRuntime) -> Result<(), Fail> {
    let alloc = rt.alloc();
    let table: [(u16, bool, (u64, &str, u64)); 4] = [
        (10, true, DEPLOYED),
        (11, true, (39, "v.d11", 8190)),
        (15, false, DEPLOYED),
        (16, false, (39, "v.d16", 17)),
    ];
    for (last, joined, wanted) in table {
        let ddl = tower(alloc, last, joined)?;
        assert!(rt; is_answer(alloc, ddl.as_slice(), wanted)?, "up to d{last}");
    }
    Ok(())
}
