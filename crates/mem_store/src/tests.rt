//! Worked runs of a journaled store, beside a store in memory that tells everything.

use crate::MemStore;
use crate::yardstick::Criterion::{All, IdBelowThree, NameIs};
use crate::yardstick::Letter::{A, B, C, Y, Z};
use crate::yardstick::Step::{
    Ask, Change, Commit, CommitAlone, End, Prepare, Reopen, Rollback, Start,
};
use crate::yardstick::{Step, attach, made_customers, said};
use gate_log::MemDisk;
use resource::{AttachFault, MemResource};
use std::alloc::Global;
use std::test::Fail;
use vdb_base::{Bytes, Seq};
use vdb_model::Caps;

/// What a journaled store can do.
const CAPS: Caps = Caps {
    equals: true,
    ordered: true,
    in_max: 1000,
    is_null: true,
    like: true,
    or: true,
    not: true,
    joins: false,
    distinct: false,
    order: false,
    limit: false,
    count_star: false,
    wide: true,
    writes: true,
};

/// The log of a store that took a branch with the customer (7, 'Z'), prepared and committed.
const WHOLE: [u8; 96] =
    *b"VDBLOG1\n\x01\0\0\0\x3c\x01\0\0\0\0\0\0\0\x01\0\0\0\0\0\0\0\x01\0\0\0\x01\0\x04cust\0\0\0\0\0\0\0\x01\0\x02\x03\0\0\0\0\0\0\0\0\0\0\0\0\0\0\0\x07\x04\0\0\0\x01Z\x01\0\0\0\x11\x02\0\0\0\0\0\0\0\x01\0\0\0\0\0\0\0\x01\0";

const COMMITTED: [Step; 5] = [
    Start,
    Change(None, [Some((7, Z)), None, None]),
    End,
    Prepare,
    Commit,
];

fn disk(alloc: Global, file: &[u8], fails: &[u32]) -> Result<MemDisk, Fail> {
    let bytes = Bytes::from_vec(file.to_vec(alloc)?);
    let fails = Seq::from_vec(fails.to_vec(alloc)?);
    Ok(MemDisk::new(alloc, bytes, fails))
}

/// What an attach answers, where it isn't Ok.
fn refusal(alloc: Global, fault: AttachFault) -> Result<String, Fail> {
    match fault {
        AttachFault::BadCell { table, row, col } => {
            Ok(format!(in alloc; "cell {table} {row} {col}")?)
        }
        AttachFault::BadStore { table } => Ok(format!(in alloc; "store {table}")?),
        AttachFault::Failed => Ok(String::from_str(alloc, "attach failed")?),
        AttachFault::Memory => Ok(String::from_str(alloc, "memory")?),
    }
}

/// What the calls of a run say of a journaled store over a file, and the file that they leave.
fn journaled(
    alloc: Global,
    file: &[u8],
    fails: &[u32],
    steps: &[Step],
) -> Result<(String, MemDisk), Fail> {
    let customers = made_customers(alloc)?;
    let mut store = MemStore::new(alloc, disk(alloc, file, fails)?);
    let text = match attach(alloc, &mut store, &customers) {
        Ok(()) => said(alloc, &mut store, &customers, steps)?,
        Err(fault) => refusal(alloc, fault)?,
    };
    Ok((text, store.into_disk()))
}

/// What they say of a store in memory that is empty.
fn in_memory(alloc: Global, steps: &[Step]) -> Result<String, Fail> {
    let customers = made_customers(alloc)?;
    let mut store = MemResource::new(alloc, Seq::new(alloc), CAPS, Seq::new(alloc));
    match attach(alloc, &mut store, &customers) {
        Ok(()) => said(alloc, &mut store, &customers, steps),
        Err(fault) => refusal(alloc, fault),
    }
}

#[test]
fn the_bytes_of_a_commit(rt: HostRuntime) -> Result<(), Fail> {
    let alloc = rt.alloc();
    let (text, left) = journaled(alloc, b"", &[], &COMMITTED)?;
    assert_eq!(rt; text.as_str(), "ok ok ok ready ok ");
    assert_eq!(rt; left.bytes(), WHOLE.as_slice());
    let (text, left) = journaled(alloc, &WHOLE, &[], &[Ask(All)])?;
    assert_eq!(rt; text.as_str(), "7 Z ");
    assert_eq!(rt; left.bytes(), WHOLE.as_slice());
    Ok(())
}

#[test]
fn each_answer_is_that_of_a_store_in_memory(rt: HostRuntime) -> Result<(), Fail> {
    let alloc = rt.alloc();
    let filled = Change(None, [Some((1, A)), Some((2, B)), Some((3, A))]);
    let table: [(&[Step], &str); 9] = [
        (
            &[Ask(All), Reopen, Commit, Rollback],
            "none not now not now ",
        ),
        (&COMMITTED, "ok ok ok ready ok "),
        (
            &[
                Start,
                filled,
                Ask(All),
                Ask(NameIs(A)),
                Ask(IdBelowThree),
                End,
                Ask(All),
                CommitAlone,
                Ask(All),
            ],
            "ok ok 1 A 2 B 3 A 1 A 3 A 1 A 2 B ok ended ok 1 A 2 B 3 A ",
        ),
        (
            &[
                Start,
                Change(None, [Some((7, Z)), Some((7, Y)), None]),
                Change(None, [Some((7, Z)), None, None]),
                Change(None, [Some((7, Y)), None, None]),
                Ask(All),
                Rollback,
                Ask(All),
            ],
            "ok duplicate ok duplicate 7 Z ok ",
        ),
        (
            &[
                Start,
                filled,
                End,
                CommitAlone,
                Start,
                Change(Some((2, B)), [Some((2, C)), None, None]),
                Change(Some((2, B)), [None, None, None]),
                Change(Some((3, A)), [None, None, None]),
                Ask(All),
                Rollback,
                Ask(All),
            ],
            "ok ok ok ok ok ok isn't there ok 1 A 2 C ok 1 A 2 B 3 A ",
        ),
        (
            &[
                Start,
                filled,
                End,
                CommitAlone,
                Start,
                Change(Some((1, A)), [Some((4, C)), None, None]),
                End,
                Prepare,
                Reopen,
                Ask(All),
                Commit,
                Ask(All),
                Reopen,
                Ask(All),
            ],
            "ok ok ok ok ok ok ok ready branch prepared ok 2 B 3 A 4 C none 2 B 3 A 4 C ",
        ),
        (
            &[
                Start,
                filled,
                End,
                Prepare,
                Rollback,
                Ask(All),
                Start,
                Change(None, [Some((1, C)), None, None]),
                End,
                Prepare,
                Commit,
                Ask(All),
            ],
            "ok ok ok ready ok ok ok ok ready ok 1 C ",
        ),
        (&[Start, End, Prepare, Ask(All)], "ok ok read only "),
        (
            &[
                Start,
                filled,
                Reopen,
                Ask(All),
                Start,
                filled,
                End,
                Reopen,
                Ask(All),
            ],
            "ok ok none ok ok ok none ",
        ),
    ];
    for (steps, expected) in table {
        let (text, _) = journaled(alloc, b"", &[], steps)?;
        assert_eq!(rt; text.as_str(), expected);
        assert_eq!(rt; in_memory(alloc, steps)?.as_str(), expected);
    }
    Ok(())
}

#[test]
fn calls_that_fail(rt: HostRuntime) -> Result<(), Fail> {
    let alloc = rt.alloc();
    let mut file = WHOLE;
    file[95] = 2;
    let one_more = [
        Start,
        Change(None, [Some((8, Y)), None, None]),
        End,
        Prepare,
        Reopen,
        Ask(All),
    ];
    let table: [(&[u8], &[u32], &[Step], &str); 7] = [
        (b"XXXXXXXXXX", &[], &[], "store 0"),
        (b"XXXXXXXXX", &[], &[Ask(All)], ""),
        (b"", &[1], &[], "attach failed"),
        (&file, &[], &[Ask(All)], "7 Z "),
        // The attach makes ten calls of the disk, and the prepared branch four.
        (
            &WHOLE,
            &[11],
            &[Reopen, Ask(All), Reopen, Ask(All)],
            "failed lost none 7 Z ",
        ),
        (&WHOLE, &[11], &one_more, "ok ok ok failed none 7 Z "),
        (&WHOLE, &[14], &one_more, "ok ok ok failed branch prepared "),
    ];
    for (file, fails, steps, expected) in table {
        let (text, _) = journaled(alloc, file, fails, steps)?;
        assert_eq!(rt; text.as_str(), expected);
    }
    Ok(())
}
