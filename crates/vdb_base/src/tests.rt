//! What no clause says: that the calls which may want memory succeed, and the texts of values.

use crate::{
    Bytes, Feed, MemFeed, MemSink, NoMemory, Nums, Row, Seq, Sink, Text, Value, print_value,
};
use std::alloc::Global;
use std::test::Fail;

fn list(alloc: Global, items: &[u32]) -> Result<Nums, NoMemory> {
    let mut made = Seq::new(alloc);
    for item in items {
        made.push(*item)?;
    }
    Ok(made)
}

fn values(alloc: Global) -> Result<Row, NoMemory> {
    let mut row = Seq::new(alloc);
    row.push(Value::Null)?;
    row.push(Value::Bool(true))?;
    row.push(Value::Num(-170141183460469231731687303715884105728))?;
    row.push(Value::Str(Text::from_str(alloc, "it's 'é'")?))?;
    Ok(row)
}

fn printed(alloc: Global, row: &Row) -> Result<Text, NoMemory> {
    let mut text = Text::new(alloc);
    for value in row.as_slice() {
        text.push_str(" ")?;
        print_value(alloc, value, &mut text)?;
    }
    Ok(text)
}

#[test]
fn values_are_copied_and_printed(rt: HostRuntime) -> Result<(), Fail> {
    let alloc = rt.alloc();
    let row = values(alloc)?;
    let mut both = row.copy(alloc)?;
    assert!(rt; both == row);
    assert!(rt; both.append(row).is_ok());
    assert_eq!(rt; both.len(), 8);
    let text = printed(alloc, &both)?;
    let once = " NULL TRUE -170141183460469231731687303715884105728 'it''s ''é'''";
    assert_eq!(rt; text.len(), 2 * once.len());
    assert!(rt; text.as_str().starts_with(once));
    Ok(())
}

#[test]
fn memory_streams_fail_by_their_lists(rt: HostRuntime) -> Result<(), Fail> {
    let alloc = rt.alloc();
    let bytes = Bytes::from_vec(b"abcdef".as_slice().to_vec(alloc)?);
    let mut feed = MemFeed::new(bytes, list(alloc, &[1, 0, 2])?, list(alloc, &[2])?);
    let mut buffer = [0u8; 4];
    let mut counts = Vec::new(alloc);
    for _ in 0..5 {
        counts.push(feed.read(&mut buffer).ok())?;
    }
    assert_eq!(rt;
        counts,
        vec![in alloc; Some(1), None, Some(2), Some(3), Some(0)]?
    );

    let mut sink = MemSink::new(alloc, list(alloc, &[2])?);
    assert!(rt; sink.write(b"one".as_slice()).is_ok());
    assert!(rt; sink.write(b"two".as_slice()).is_err());
    assert!(rt; sink.write(b"three".as_slice()).is_ok());
    assert!(rt; sink.bytes() == b"onethree".as_slice());
    Ok(())
}
