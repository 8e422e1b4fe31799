//! What worked logs open as.

ghost use Rattle.std.specs.Prelude.{IfOk};
ghost use Rattle.store_replay.specs.Replaying.{AreApart};

use crate::open_store;
use gate_log::{Log, MemDisk};
use resource::AttachFault;
use std::alloc::{AllocError, Global};
use std::test::Fail;
use vdb_base::{Bytes, NoMemory, Seq, Text, Ty};
use vdb_model::{ColumnDef, TableDef, TableDefs};

fn column(alloc: Global, name: &str, ty: Ty) -> Result<ColumnDef, NoMemory> {
    Ok(ColumnDef {
        name: Text::from_str(alloc, name)?,
        source: Text::from_str(alloc, name)?,
        ty,
        not_null: true,
    })
}

/// A table of an integer, which is its key, and a word.
fn cust(alloc: Global) -> Result<TableDef, NoMemory> {
    let id = column(alloc, "id", Ty::Integer)?;
    let word = column(alloc, "word", Ty::Str)?;
    Ok(TableDef {
        number: 3,
        server: 0,
        schema: Text::from_str(alloc, "s")?,
        name: Text::from_str(alloc, "cust")?,
        source: Text::from_str(alloc, "cust")?,
        columns: Seq::from_vec(vec![in alloc; id, word]?),
        key: Some(Seq::from_vec(vec![in alloc; 0]?)),
        patterns: Seq::new(alloc),
        updatable: true,
    })
}

fn defs(alloc: Global) -> Result<TableDefs, NoMemory>
    ensures { IfOk result AreApart }
{
    let mut defs = Seq::new(alloc);
    defs.push(cust(alloc)?)?;
    Ok(defs)
}

/// A record of the worked logs.
#[derive(Clone, Copy)]
enum Record {
    /// A branch that adds (7, 'Z') to cust, committed as it comes.
    AtOnce,
    /// The same, with a byte behind it.
    Longer,
    /// A branch that adds (8, NULL).
    WithoutWord,
    /// The first branch, to wait for its end.
    Prepared,
    /// The branch with NULL.
    PreparedWithoutWord,
    Committed,
    RolledBack,
    /// The end of another transaction.
    OtherCommitted,
    /// A record of a kind that there isn't.
    Unknown,
}

use Record::{
    AtOnce, Committed, Longer, OtherCommitted, Prepared, PreparedWithoutWord, RolledBack, Unknown,
    WithoutWord,
};

/// A kind, and a transaction of epoch 1.
fn head(alloc: Global, kind: u8, seq: u8) -> Result<Vec<u8>, AllocError> {
    [kind, 0, 0, 0, 0, 0, 0, 0, 1, 0, 0, 0, 0, 0, 0, 0, seq]
        .as_slice()
        .to_vec(alloc)
}

/// A branch that adds a row to cust: the number, and the bytes of the word.
fn branch(alloc: Global, kind: u8, id: u8, word: &[u8]) -> Result<Vec<u8>, AllocError> {
    let mut bytes = head(alloc, kind, 1)?;
    bytes.extend_from_slice(
        b"\0\0\0\x01\0\x04cust\0\0\0\0\0\0\0\x01\0\x02\x03\0\0\0\0\0\0\0\0\0\0\0\0\0\0\0",
    )?;
    bytes.push(id)?;
    bytes.extend_from_slice(word)?;
    Ok(bytes)
}

fn payload(alloc: Global, record: Record) -> Result<Vec<u8>, AllocError> {
    match record {
        AtOnce => branch(alloc, 4, 7, b"\x04\0\0\0\x01Z"),
        Longer => branch(alloc, 4, 7, b"\x04\0\0\0\x01Z\0"),
        WithoutWord => branch(alloc, 4, 8, b"\0"),
        Prepared => branch(alloc, 1, 7, b"\x04\0\0\0\x01Z"),
        PreparedWithoutWord => branch(alloc, 1, 8, b"\0"),
        Committed => head(alloc, 2, 1),
        RolledBack => head(alloc, 3, 1),
        OtherCommitted => head(alloc, 2, 2),
        Unknown => head(alloc, 5, 1),
    }
}

/// A log of these records.
fn log_of(alloc: Global, records: &[Record]) -> Result<Log<MemDisk>, AllocError> {
    let mut bytes = b"VDBLOG1\n".as_slice().to_vec(alloc)?;
    for record in records {
        let payload = payload(alloc, *record)?;
        let len = payload.len().min(255) as u8;
        bytes.extend_from_slice(&[1, 0, 0, 0, len])?;
        bytes.extend_from_slice(payload.as_slice())?;
    }
    bytes.push(0)?;
    Ok(Log::closed(MemDisk::new(alloc, Bytes::from_vec(bytes), Seq::new(alloc))))
}

fn opens_as(alloc: Global, records: &[Record]) -> Result<String, Fail> {
    let mut log = log_of(alloc, records)?;
    match open_store(alloc, &mut log, defs(alloc)?) {
        Ok(opened) => {
            let waits = opened.waiting.is_some();
            Ok(format!(in alloc; "{} records, a branch: {waits}", opened.records)?)
        }
        Err(AttachFault::BadCell { table, row, col }) => {
            Ok(format!(in alloc; "cell {table} {row} {col}")?)
        }
        Err(AttachFault::BadStore { table }) => Ok(format!(in alloc; "store {table}")?),
        Err(AttachFault::Failed) => Ok(String::from_str(alloc, "failed")?),
        Err(AttachFault::Memory) => Ok(String::from_str(alloc, "memory")?),
    }
}

#[test]
fn logs_are_opened(rt: HostRuntime) -> Result<(), Fail> {
    let alloc = rt.alloc();
    let table: [(&[Record], &str); 15] = [
        (&[], "0 records, a branch: false"),
        (&[AtOnce], "1 records, a branch: false"),
        (&[Prepared], "1 records, a branch: true"),
        (&[Prepared, Committed], "2 records, a branch: false"),
        (
            &[Prepared, RolledBack, AtOnce],
            "3 records, a branch: false",
        ),
        (&[Unknown], "store 0"),
        (&[Longer], "store 0"),
        (&[Committed], "store 0"),
        (&[Prepared, OtherCommitted], "store 0"),
        (&[Prepared, Prepared], "store 0"),
        (&[Prepared, AtOnce], "store 0"),
        (&[AtOnce, WithoutWord], "cell 4 2 2"),
        (&[AtOnce, PreparedWithoutWord], "cell 4 2 2"),
        (&[AtOnce, AtOnce], "store 4"),
        (&[AtOnce, Prepared], "store 4"),
    ];
    for (records, answer) in table {
        assert_eq!(rt; opens_as(alloc, records)?.as_str(), answer);
    }
    Ok(())
}
