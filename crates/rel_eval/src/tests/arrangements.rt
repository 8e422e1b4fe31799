//! Rows arranged by keys, and the total order.

use super::{customers, letters, orders, row_of, shows, shows_in_order};
use crate::{arrange, arrange_totally, cmp_totally};
use std::alloc::Global;
use std::cmp::Ordering;
use std::test::Fail;
use vdb_base::{NoMemory, Rows, Seq};
use vdb_model::{Key, Keys};

fn by(alloc: Global, keys: &[(u32, bool)]) -> Result<Keys, NoMemory> {
    let mut made = Seq::new(alloc);
    for (column, desc) in keys {
        made.push(Key {
            column: *column,
            desc: *desc,
        })?;
    }
    Ok(made)
}

/// The greatest customer first, and of one customer the least quantity.
fn by_customer(alloc: Global) -> Result<Keys, NoMemory> {
    by(alloc, &[(1, true), (2, false)])
}

fn arranged(alloc: Global, offset: u64, limit: Option<u64>) -> Result<Rows, NoMemory> {
    arrange(alloc, &orders(alloc)?, &by_customer(alloc)?, offset, limit)
}

fn totally_arranged(alloc: Global, offset: u64, limit: Option<u64>) -> Result<Rows, NoMemory> {
    arrange_totally(alloc, &orders(alloc)?, &by_customer(alloc)?, offset, limit)
}

/// How two rows stand by their second column, and then by both.
fn compared(alloc: Global, desc: bool, a: &[i128], b: &[i128]) -> Result<Ordering, NoMemory> {
    let keys = by(alloc, &[(1, desc)])?;
    let a = row_of(alloc, a)?;
    Ok(cmp_totally(keys.as_slice(), &a, &row_of(alloc, b)?))
}

#[test]
fn windows(rt: HostRuntime) -> Result<(), Fail> {
    let alloc = rt.alloc();
    for (offset, limit, want) in [
        (0, None, "13 2 0 ; 10 1 5 ; 11 1 7 ; 12 NULL 1 ; "),
        (0, Some(1), "13 2 0 ; "),
        (1, Some(2), "10 1 5 ; 11 1 7 ; "),
        (3, Some(2), "12 NULL 1 ; "),
        (4, None, ""),
        (0, Some(0), ""),
    ] {
        let rows = arranged(alloc, offset, limit)?;
        assert!(rt; shows(alloc, &rows, want)?, "from {offset} on, {limit:?}");
        let rows = totally_arranged(alloc, offset, limit)?;
        assert!(rt;
            shows(alloc, &rows, want)?,
            "in total from {offset} on, {limit:?}"
        );
    }
    Ok(())
}

#[test]
fn ties_by_all_columns(rt: HostRuntime) -> Result<(), Fail> {
    let alloc = rt.alloc();
    let keys = by(alloc, &[(1, true)])?;
    let rows = arrange_totally(alloc, &orders(alloc)?, &keys, 0, None)?;
    assert!(rt; shows(alloc, &rows, "13 2 0 ; 10 1 5 ; 11 1 7 ; 12 NULL 1 ; ")?);
    Ok(())
}

#[test]
fn without_keys(rt: HostRuntime) -> Result<(), Fail> {
    let alloc = rt.alloc();
    let rows = arrange(alloc, &customers(alloc)?, &by(alloc, &[])?, 0, None)?;
    assert!(rt; shows_in_order(alloc, &rows, "1 ; 2 ; 3 ; ")?);
    Ok(())
}

#[test]
fn of_texts(rt: HostRuntime) -> Result<(), Fail> {
    let alloc = rt.alloc();
    let rows = arrange(alloc, &letters(alloc)?, &by(alloc, &[(0, false)])?, 0, None)?;
    assert!(rt; shows(alloc, &rows, "'a' ; 'b' ; 'é' ; ")?);
    Ok(())
}

#[test]
fn of_two_rows(rt: HostRuntime) -> Result<(), Fail> {
    let alloc = rt.alloc();
    for (desc, a, b, want) in [
        (false, [1, 2], [1, 3], Ordering::Less),
        (true, [1, 2], [1, 3], Ordering::Greater),
        (false, [2, 2], [1, 2], Ordering::Greater),
        (true, [2, 2], [1, 2], Ordering::Greater),
        (true, [1, 2], [1, 2], Ordering::Equal),
        (false, [1, -1], [0, 0], Ordering::Less),
        (true, [1, -1], [0, 0], Ordering::Greater),
    ] {
        let order = compared(alloc, desc, a.as_slice(), b.as_slice())?;
        assert_eq!(rt; order, want, "{a:?}, {b:?}");
    }
    Ok(())
}
