//! The bytes of a worked branch, and payloads that are no records.

use crate::{Branch, Ending, Entry, Form, ReadFault, encoded, ending_frame, read_entry};
use resource::StoredDelta;
use std::alloc::Global;
use std::test::Fail;
use vdb_base::{NoMemory, Row, Seq, Text, Value};
use vdb_model::Xid;

const FIRST: Xid = Xid { epoch: 1, seq: 1 };

/// The frame of the prepared branch that adds (7, 'Z') to cust.
const FRAME: [u8; 65] =
    *b"\0\0\0\x3c\x01\0\0\0\0\0\0\0\x01\0\0\0\0\0\0\0\x01\0\0\0\x01\0\x04cust\0\0\0\0\0\0\0\x01\0\x02\x03\0\0\0\0\0\0\0\0\0\0\0\0\0\0\0\x07\x04\0\0\0\x01Z\0";

/// The frame of its end.
const COMMITTED: [u8; 22] = *b"\0\0\0\x11\x02\0\0\0\0\0\0\0\x01\0\0\0\0\0\0\0\x01\0";

fn row(alloc: Global, id: i128, word: &str) -> Result<Row, NoMemory> {
    let word = Value::Str(Text::from_str(alloc, word)?);
    Ok(Seq::from_vec(vec![in alloc; Value::Num(id), word]?))
}

fn delta(alloc: Global) -> Result<StoredDelta, NoMemory> {
    let added = row(alloc, 7, "Z")?;
    Ok(StoredDelta {
        source: Text::from_str(alloc, "cust")?,
        removed: Seq::new(alloc),
        added: Seq::from_vec(vec![in alloc; added]?),
    })
}

/// What a payload is read as.
fn outcome(alloc: Global, payload: &[u8]) -> Result<String, Fail> {
    Ok(match read_entry(alloc, payload) {
        Ok(Entry::Prepared(x, deltas)) => {
            format!(in alloc; "prepared {} {} with {}", x.epoch, x.seq, deltas.len())?
        }
        Ok(Entry::OnePhase(x, deltas)) => {
            format!(in alloc; "kept {} {} with {}", x.epoch, x.seq, deltas.len())?
        }
        Ok(Entry::Committed(x)) => format!(in alloc; "committed {} {}", x.epoch, x.seq)?,
        Ok(Entry::RolledBack(x)) => format!(in alloc; "rolled back {} {}", x.epoch, x.seq)?,
        Err(ReadFault::Broken) => format!(in alloc; "broken")?,
        Err(ReadFault::Memory) => format!(in alloc; "memory")?,
    })
}

#[test]
fn a_branch_as_it_is_written(rt: HostRuntime) -> Result<(), Fail> {
    let alloc = rt.alloc();
    let bytes = encoded(alloc, &delta(alloc)?)?;
    let mut branch = Branch::new(alloc);
    assert_eq!(rt; branch.size(), 48);
    assert_eq!(rt; branch.size_with(bytes.as_slice()), 87);
    branch.add(bytes.as_slice())?;
    assert_eq!(rt; branch.size(), 87);
    let prepared = branch.frame(alloc, Form::Prepared, FIRST)?;
    assert_eq!(rt; prepared.as_slice(), FRAME.as_slice());
    let kept = branch.frame(alloc, Form::OnePhase, FIRST)?;
    assert_eq!(rt; kept.as_slice().get(4).copied(), Some(4));
    assert_eq!(rt; ending_frame(Ending::Committed, FIRST), COMMITTED);
    assert_eq!(rt; ending_frame(Ending::RolledBack, FIRST)[4], 3);
    branch.clear();
    assert_eq!(rt; branch.size(), 48);
    Ok(())
}

#[test]
fn payloads_say(rt: HostRuntime) -> Result<(), Fail> {
    let alloc = rt.alloc();
    let table: [(&[u8], &str); 12] = [
        (&FRAME[4..64], "prepared 1 1 with 1"),
        (&COMMITTED[4..21], "committed 1 1"),
        (
            b"\x03\0\0\0\0\0\0\0\x02\0\0\0\0\0\0\0\x05",
            "rolled back 2 5",
        ),
        (
            b"\x04\0\0\0\0\0\0\0\x02\0\0\0\0\0\0\0\x05\0\0\0\0",
            "kept 2 5 with 0",
        ),
        (b"", "broken"),
        (b"\0", "broken"),
        (b"\x05\0\0\0\0\0\0\0\x02\0\0\0\0\0\0\0\x05", "broken"),
        // A number is cut, and bytes follow the end.
        (b"\x02\0\0\0\0\0\0\0\x02\0\0\0\0\0\0\0", "broken"),
        (b"\x02\0\0\0\0\0\0\0\x02\0\0\0\0\0\0\0\x05\0", "broken"),
        (&FRAME[4..63], "broken"),
        (&FRAME[4..65], "broken"),
        // A name that is no UTF-8.
        (
            b"\x04\0\0\0\0\0\0\0\x01\0\0\0\0\0\0\0\x01\0\0\0\x01\0\x01\xff\0\0\0\0\0\0\0\0",
            "broken",
        ),
    ];
    for (payload, expected) in table {
        assert_eq!(rt; outcome(alloc, payload)?.as_str(), expected);
    }
    Ok(())
}

#[test]
fn kinds_of_values(rt: HostRuntime) -> Result<(), Fail> {
    let alloc = rt.alloc();
    let table: [(Value, &[u8]); 5] = [
        (Value::Null, b"\0\x01t\0\0\0\x01\0\x01\0\0\0\0\0"),
        (Value::Bool(false), b"\0\x01t\0\0\0\x01\0\x01\x01\0\0\0\0"),
        (Value::Bool(true), b"\0\x01t\0\0\0\x01\0\x01\x02\0\0\0\0"),
        (
            Value::Num(-2),
            b"\0\x01t\0\0\0\x01\0\x01\x03\xff\xff\xff\xff\xff\xff\xff\xff\xff\xff\xff\xff\xff\xff\xff\xfe\0\0\0\0",
        ),
        (
            Value::Str(Text::from_str(alloc, "ab")?),
            b"\0\x01t\0\0\0\x01\0\x01\x04\0\0\0\x02ab\0\0\0\0",
        ),
    ];
    for (v, expected) in table {
        let row = Seq::from_vec(vec![in alloc; v]?);
        let change = StoredDelta {
            source: Text::from_str(alloc, "t")?,
            removed: Seq::from_vec(vec![in alloc; row]?),
            added: Seq::new(alloc),
        };
        assert_eq!(rt; encoded(alloc, &change)?.as_slice(), expected);
    }
    Ok(())
}
