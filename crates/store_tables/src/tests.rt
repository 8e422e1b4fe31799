//! That the calls succeed, and in which order rows are answered.

use crate::{Shelf, place_of};
use std::alloc::Global;
use std::test::Fail;
use vdb_base::{NoMemory, Row, Rows, Seq, Text, Ty, Value};
use vdb_model::{ColumnDef, Delta, TableDef};

const WORDS: u32 = 3;

fn column(alloc: Global, name: &str, ty: Ty) -> Result<ColumnDef, NoMemory> {
    Ok(ColumnDef {
        name: Text::from_str(alloc, name)?,
        source: Text::from_str(alloc, name)?,
        ty,
        not_null: true,
    })
}

/// A table of an integer, which is its key, and a word.
fn words(alloc: Global) -> Result<TableDef, NoMemory> {
    let id = column(alloc, "id", Ty::Integer)?;
    let word = column(alloc, "word", Ty::Str)?;
    Ok(TableDef {
        number: WORDS,
        server: 0,
        schema: Text::from_str(alloc, "s")?,
        name: Text::from_str(alloc, "words")?,
        source: Text::from_str(alloc, "words")?,
        columns: Seq::from_vec(vec![in alloc; id, word]?),
        key: Some(Seq::from_vec(vec![in alloc; 0]?)),
        patterns: Seq::new(alloc),
        updatable: false,
    })
}

fn row(alloc: Global, id: i128, word: &str) -> Result<Row, NoMemory> {
    let word = Value::Str(Text::from_str(alloc, word)?);
    Ok(Seq::from_vec(vec![in alloc; Value::Num(id), word]?))
}

fn rows(alloc: Global, cells: &[(i128, &str)]) -> Result<Rows, NoMemory> {
    let mut rows = Seq::new(alloc);
    for (id, word) in cells {
        rows.push(row(alloc, *id, word)?)?;
    }
    Ok(rows)
}

/// Makes the change, where the key stands apart after it.
fn change(
    alloc: Global,
    shelf: &mut Shelf,
    removed: &[(i128, &str)],
    added: &[(i128, &str)],
) -> Result<bool, NoMemory> {
    let delta = Delta {
        table: WORDS,
        removed: rows(alloc, removed)?,
        added: rows(alloc, added)?,
    };
    let Some(at) = place_of(shelf.defs(), delta.table) else {
        return Ok(false);
    };
    let keys = shelf.touch(alloc, at, &delta)?;
    let apart = shelf.keeps_key(alloc, at, &keys)?;
    if apart {
        shelf.apply(at, &delta, &keys);
    }
    Ok(apart)
}

/// The words and their numbers.
fn shown(alloc: Global, shelf: &Shelf) -> Result<String, Fail> {
    let rows = shelf.answer(alloc, WORDS, &[], &[1, 0])?;
    let mut shown = String::new(alloc);
    for row in rows.as_slice() {
        for v in row.as_slice() {
            match v {
                Value::Num(number) => shown.push_str(format!(in alloc; "{number} ")?.as_str())?,
                Value::Str(word) => shown.push_str(format!(in alloc;
                    "{} ",
                    word.as_str()
                )?.as_str())?,
                Value::Null | Value::Bool(_) => shown.push_str("? ")?,
            }
        }
    }
    Ok(shown)
}

#[test]
fn changes_are_kept_and_taken_back(rt: HostRuntime) -> Result<(), Fail> {
    let alloc = rt.alloc();
    let other = TableDef {
        number: 1,
        ..words(alloc)?
    };
    let mut shelf = Shelf::new(alloc, Seq::from_vec(vec![in alloc; other, words(alloc)?]?))?;
    let first = change(alloc, &mut shelf, &[], &[(2, "two"), (1, "one")])?;
    shelf.keep();
    let moved = change(alloc, &mut shelf, &[(1, "one")], &[(1, "uno"), (3, "tre")])?;
    let seen = shown(alloc, &shelf)?;
    let repeated = change(alloc, &mut shelf, &[], &[(2, "zwei")])?;
    let twice = change(alloc, &mut shelf, &[], &[(4, "four"), (4, "quattro")])?;
    let same = shown(alloc, &shelf)?;
    assert_eq!(rt; (first, moved, repeated, twice), (true, true, false, false));
    assert_eq!(rt; seen.as_str(), "uno 1 two 2 tre 3 ");
    assert_eq!(rt; same.as_str(), seen.as_str());
    assert!(rt; shelf.is_in_order());
    shelf.take_back();
    assert_eq!(rt; shown(alloc, &shelf)?.as_str(), "one 1 two 2 ");
    assert_eq!(rt; shelf.copy_defs(alloc)?.len(), 2);
    Ok(())
}
