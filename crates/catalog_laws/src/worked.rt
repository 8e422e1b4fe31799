//! Worked DDL over one store in memory, for the tests.

use metadata::{ConnInfo, ConnInfos, deploy};
use std::alloc::{AllocError, Global};
use std::test::Fail;
use vdb_base::{NoMemory, Seq, Text};
use vdb_ddl::read_ddl;
use vdb_model::{Caps, Catalog, Kind};

const MEM: Caps = Caps {
    equals: true,
    ordered: true,
    in_max: 1000,
    is_null: true,
    like: true,
    or: true,
    not: true,
    joins: true,
    distinct: true,
    order: true,
    limit: true,
    count_star: true,
    wide: true,
    writes: true,
};

/// A connection `s` to a store in memory.
pub fn connections(alloc: Global) -> Result<ConnInfos, NoMemory> {
    let mut conns = Seq::new(alloc);
    conns.push(ConnInfo {
        name: Text::from_str(alloc, "s")?,
        kind: Kind::Mem,
        caps: MEM,
    })?;
    Ok(conns)
}

pub const FRONT: &[u8] =
    b"CREATE SERVER s FOREIGN DATA WRAPPER mem;CREATE SCHEMA c SERVER s;SET SCHEMA c;\
    CREATE FOREIGN TABLE cust (id integer, name string);CREATE VIRTUAL SCHEMA v;SET SCHEMA v;";

/// A view over the one below it, joined with itself or not.
fn push_view(alloc: Global, ddl: &mut Vec<u8>, below: u16, joined: bool) -> Result<(), AllocError> {
    let number = u32::from(below) + 1;
    let view = if joined {
        format!(in alloc;
            "CREATE VIEW d{number} AS SELECT a.id FROM v.d{below} a JOIN v.d{below} b ON a.id = b.id;"
        )?
    } else {
        format!(in alloc; "CREATE VIEW d{number} AS SELECT id FROM v.d{below};")?
    };
    ddl.extend_from_slice(view.as_bytes())
}

/// The views `d0` to `d` and the number, each over the one before.
pub fn tower(alloc: Global, last: u16, joined: bool) -> Result<Vec<u8>, AllocError> {
    let mut ddl = Vec::from_slice(alloc, FRONT)?;
    ddl.extend_from_slice(b"CREATE VIEW d0 AS SELECT id FROM c.cust;")?;
    for below in 0..last {
        push_view(alloc, &mut ddl, below, joined)?;
    }
    Ok(ddl)
}

/// What a DDL defines over the connection.
pub fn deployed(alloc: Global, ddl: &[u8]) -> Result<Catalog, Fail> {
    let Ok(items) = read_ddl(alloc, ddl) else {
        return Err("no DDL".into());
    };
    let conns = connections(alloc)?;
    match deploy(alloc, &items, &conns) {
        Ok(cat) => Ok(cat),
        Err(_) => Err("no deployment".into()),
    }
}
