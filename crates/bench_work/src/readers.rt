//! Texts that are read.

use sql_reader::read::{ReadFault, read_statement};
use sql_tokens::{Found, next_statement};
use std::alloc::Global;
use vdb_base::NoMemory;
use vdb_ddl::read_ddl;

/// The first text, and then the second so many times.
fn repeated(alloc: Global, front: &[u8], part: &[u8], count: u32) -> Result<Vec<u8>, NoMemory> {
    let mut text = Vec::from_slice(alloc, front)?;
    for _ in 0..count {
        text.extend_from_slice(part)?;
    }
    Ok(text)
}

fn is_statement(alloc: Global, text: &[u8]) -> Result<bool, NoMemory> {
    match read_statement(alloc, text) {
        Ok(_) => Ok(true),
        Err(ReadFault::Syntax { .. }) => Ok(false),
        Err(ReadFault::Memory) => Err(NoMemory),
    }
}

/// Reads one statement of 4 tokens and so many times 13 more: how many of its conditions were read, all or none.
pub fn read_long(alloc: Global, count: u32) -> Result<usize, NoMemory> {
    let part = b" AND a.b + 1 <= 'x' OR NOT c IS NULL";
    let text = repeated(alloc, b"SELECT c WHERE c", part, count)?;
    Ok(if is_statement(alloc, text.as_slice())? {
        count as usize
    } else {
        0
    })
}

/// Cuts a script into so many statements of 12 tokens and reads them: how many it has.
pub fn read_script(alloc: Global, count: u32) -> Result<usize, NoMemory> {
    let script = repeated(
        alloc,
        b"",
        b"SELECT id, name FROM c.cust WHERE name = 'Bob';",
        count,
    )?;
    let mut from = 0;
    let mut read: usize = 0;
    for _ in 0..count {
        let Found::Statement { start, end, next } = next_statement(script.as_slice(), from, true)
        else {
            break;
        };
        if is_statement(alloc, script.get(start..end).unwrap_or_default())? {
            read = read.saturating_add(1);
        }
        from = next;
    }
    Ok(read)
}

/// Reads a DDL text of so many items of 14 tokens: how many it has.
pub fn read_definitions(alloc: Global, count: u32) -> Result<usize, NoMemory> {
    let text = repeated(
        alloc,
        b"",
        b"CREATE FOREIGN TABLE t (id integer NOT NULL, name string);",
        count,
    )?;
    match read_ddl(alloc, text.as_slice()) {
        Ok(items) => Ok(items.len()),
        Err(ReadFault::Syntax { .. }) => Ok(0),
        Err(ReadFault::Memory) => Err(NoMemory),
    }
}
