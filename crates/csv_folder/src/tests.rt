//! What files say of tables, and a folder that is attached and asked.

ghost use Rattle.std.specs.Prelude.{◌≡◌, [], ◌∷◌, IfOk, Some};
ghost use Rattle.vdb_model.specs.Defs.{def_of};
ghost use Rattle.csv_folder.specs.CsvFolder.{folder_told};

use crate::file::{File, Files};
use crate::folder::CsvFolder;
use crate::tables::read_tables;
use resource::{AttachFault, ResFault, ResState, Resource};
use sqlite_items::Items;
use std::alloc::Global;
use std::test::Fail;
use vdb_base::{NoMemory, Rows, Seq, Text, Ty, Value};
use vdb_model::{ColumnDef, SourceQuery, TableDef, TableDefs, are_fit};

fn column(
    alloc: Global,
    name: &str,
    source: &str,
    ty: Ty,
    not_null: bool,
) -> Result<ColumnDef, NoMemory> {
    Ok(ColumnDef {
        name: Text::from_str(alloc, name)?,
        source: Text::from_str(alloc, source)?,
        ty,
        not_null,
    })
}

/// A table of an id, which is its key, a name, a truth and a number of any size.
fn people(alloc: Global, number: u32, source: &str) -> Result<TableDef, NoMemory>
    ensures number { IfOk result (λ d. d.number ≡ number) }
    ensures patterns { IfOk result (λ d. d.patterns ≡ []) }
{
    let id = column(alloc, "id", "ID", Ty::Integer, true)?;
    let name = column(alloc, "name", "name", Ty::Str, false)?;
    let ok = column(alloc, "ok", "ok", Ty::Boolean, false)?;
    let big = column(alloc, "big", "Big", Ty::BigInteger, false)?;
    Ok(TableDef {
        number,
        server: 0,
        schema: Text::from_str(alloc, "s")?,
        name: Text::from_str(alloc, source)?,
        source: Text::from_str(alloc, source)?,
        columns: Seq::from_vec(vec![in alloc; id, name, ok, big]?),
        key: Some(Seq::from_vec(vec![in alloc; 0]?)),
        patterns: Seq::new(alloc),
        updatable: false,
    })
}

fn file(alloc: Global, name: &str, bytes: &[u8]) -> Result<File, NoMemory> {
    let mut items = Vec::with_capacity(alloc, bytes.len())?;
    for byte in bytes {
        items.push(*byte)?;
    }
    Ok(File {
        name: Text::from_str(alloc, name)?,
        bytes: Seq::from_vec(items),
    })
}

fn shown(alloc: Global, rows: &Rows) -> Result<String, Fail> {
    let mut shown = String::new(alloc);
    for row in rows.as_slice() {
        for v in row.as_slice() {
            match v {
                Value::Null => shown.push_str("NULL,")?,
                Value::Bool(truth) => shown.push_str(format!(in alloc; "{truth},")?.as_str())?,
                Value::Num(number) => shown.push_str(format!(in alloc; "{number},")?.as_str())?,
                Value::Str(text) => {
                    shown.push_str(format!(in alloc; "'{}',", text.as_str())?.as_str())?;
                }
            }
        }
        shown.push_str(" ")?;
    }
    shown.push_str("|")?;
    Ok(shown)
}

fn all_shown(alloc: Global, tables: &Seq<Rows>) -> Result<String, Fail> {
    let mut all = String::new(alloc);
    for rows in tables.as_slice() {
        all.push_str(shown(alloc, rows)?.as_str())?;
    }
    Ok(all)
}

/// What a folder of these two files says of the tables `a` and `b`, or of `a` alone.
fn outcome(alloc: Global, a: &[u8], b: Option<&[u8]>) -> Result<String, Fail> {
    let mut files: Files = Seq::from_vec(vec![in alloc; file(alloc, "a.csv", a)?]?);
    let mut defs: TableDefs = Seq::from_vec(vec![in alloc; people(alloc, 6, "a")?]?);
    if let Some(b) = b {
        files.push(file(alloc, "b.csv", b)?)?;
        defs.push(people(alloc, 7, "b")?)?;
    }
    match read_tables(alloc, files.as_slice(), defs.as_slice()) {
        Ok(tables) => all_shown(alloc, &tables),
        Err(AttachFault::BadCell { table, row, col }) => {
            Ok(format!(in alloc; "cell {table} {row} {col}")?)
        }
        Err(AttachFault::BadStore { table }) => Ok(format!(in alloc; "store {table}")?),
        Err(AttachFault::Failed) => Ok(String::from_str(alloc, "failed")?),
        Err(AttachFault::Memory) => Ok(String::from_str(alloc, "memory")?),
    }
}

#[test]
fn files_say(rt: HostRuntime) -> Result<(), Fail> {
    let alloc = rt.alloc();
    let table: [(&[u8], &str); 30] = [
        (b"id,name,ok,big\n1,Ann,true,5\n", "1,'Ann',true,5, |"),
        (b"BIG,x,Ok,NAME,Id\r\n5,zz,T,Ann,1\r\n", "1,'Ann',true,5, |"),
        (
            b"\xef\xbb\xbfid,name,ok,big\n1,Ann,true,5",
            "1,'Ann',true,5, |",
        ),
        (b"id,name,ok,big\n", "|"),
        (
            b"id,name,ok,big\n1,,,\n2,\"\",\"\",\"\"\n",
            "1,NULL,NULL,NULL, 2,NULL,NULL,NULL, |",
        ),
        (
            b"id,name,ok,big\n +1 , x , f , -007 \n",
            "1,' x ',false,-7, |",
        ),
        (
            b"id,name,ok,big\n-2147483648,\"a,\"\"b\n\",1,170141183460469231731687303715884105727\n",
            "-2147483648,'a,\"b\n',true,170141183460469231731687303715884105727, |",
        ),
        (
            b"id,name,ok,big\n1,a,FALSE,-170141183460469231731687303715884105728\n",
            "1,'a',false,-170141183460469231731687303715884105728, |",
        ),
        (
            b"id,name,ok,big\n1,a,0,5\n2,a,TRUE,5\n3,a,F,5\n",
            "1,'a',false,5, 2,'a',true,5, 3,'a',false,5, |",
        ),
        (
            b"id,name,ok,big\n1,Ann,true,5\n1 2,Bob,true,5\n",
            "cell 7 2 1",
        ),
        (b"id,name,ok,big\n2147483648,Ann,true,5\n", "cell 7 1 1"),
        (b"id,name,ok,big\nx,Ann,true,5\n", "cell 7 1 1"),
        (b"id,name,ok,big\n+,Ann,true,5\n", "cell 7 1 1"),
        (b"id,name,ok,big\n ,Ann,true,5\n", "cell 7 1 1"),
        (b"id,name,ok,big\n,Ann,true,5\n", "cell 7 1 1"),
        (b"id,name,ok,big\n1,Ann,yes,5\n", "cell 7 1 3"),
        (
            b"id,name,ok,big\n1,Ann,true,170141183460469231731687303715884105728\n",
            "cell 7 1 4",
        ),
        (b"big,ok,name,id\n1.0,yes,\xff,1\n", "cell 7 1 2"),
        (
            b"id,name,ok,big\n1,Ann,t,5\n2,Bob,y,z\n3,\xff,t,5\n",
            "cell 7 2 3",
        ),
        (b"", "store 7"),
        (b"id,name,ok\n1,Ann,true\n", "store 7"),
        (b"id,name,ok,big,ID\n1,Ann,true,5,1\n", "store 7"),
        (b"id,name,ok,big,x,X\n1,Ann,true,5,1,1\n", "store 7"),
        (b"id,name,ok,big\n1,Ann,true,5,6\n", "store 7"),
        (b"id,name,ok,big\n1,Ann,true\n", "store 7"),
        (b"id,name,ok,big\n1,Ann,true,5\n+01,Bob,true,5\n", "store 7"),
        (b"id,name,ok,big\nx,Ann,true,5\n1,Ann\n", "store 7"),
        (
            b"id,name,ok,big\n1,Ann,yes,5\n2,Bob,t,5\n1,Cy,t,5\n",
            "store 7",
        ),
        (
            b"id,name,ok,big\nx,Ann,true,5\nx,Bob,true,5\n",
            "cell 7 1 1",
        ),
        (
            b"id,name,ok,big\n1,Ann,true,5\n\n2,Bob,f,\n",
            "1,'Ann',true,5, 2,'Bob',false,NULL, |",
        ),
    ];
    for (bytes, expected) in table {
        assert_eq!(rt; outcome(alloc, bytes, None)?.as_str(), expected);
    }
    Ok(())
}

#[test]
fn tables_in_turn(rt: HostRuntime) -> Result<(), Fail> {
    let alloc = rt.alloc();
    let good: &[u8] = b"id,name,ok,big\n1,Ann,true,5\n";
    let bad: &[u8] = b"id,name,ok,big\nx,Ann,true,5\n";
    let broken: &[u8] = b"id,name\n1,Ann\n";
    let table: [(&[u8], &[u8], &str); 4] = [
        (good, good, "1,'Ann',true,5, |1,'Ann',true,5, |"),
        (good, bad, "cell 8 1 1"),
        (bad, broken, "cell 7 1 1"),
        (broken, bad, "store 7"),
    ];
    for (a, b, expected) in table {
        assert_eq!(rt; outcome(alloc, a, Some(b))?.as_str(), expected);
    }
    let mut long = String::from_str(alloc, "id,name,ok,big\n1,")?;
    for _ in 0..4000 {
        long.push_str("a")?;
    }
    let mut longer = long.clone()?;
    long.push_str(",t,5\n")?;
    longer.push_str("a,t,5\n")?;
    assert!(rt; 4000 < outcome(alloc, long.as_bytes(), None)?.len());
    assert_eq!(rt;
        outcome(alloc, longer.as_bytes(), None)?.as_str(),
        "cell 7 1 2"
    );
    let files: Files = Seq::new(alloc);
    let defs = [people(alloc, 6, "a")?];
    assert!(rt;
        matches!(
            read_tables(alloc, files.as_slice(), &defs),
            Err(AttachFault::BadStore { table: 7 })
        )
    );
    Ok(())
}

/// The names and then the ids.
fn names_asked(alloc: Global) -> Result<SourceQuery, NoMemory>
    ensures { IfOk result (λ q. (q.tables ≡ 0 ∷ []) × (q.filter ≡ [])) }
{
    Ok(SourceQuery {
        tables: Seq::from_vec(vec![in alloc; 0]?),
        filter: Items::from_vec(Vec::new(alloc)),
        columns: Seq::from_vec(vec![in alloc; 1, 0]?),
        distinct: false,
        order: Seq::new(alloc),
        limit: None,
        count: false,
    })
}

/// Reads the files again, and then asks.
fn show(alloc: Global, folder: &mut CsvFolder, defs: &TableDefs) -> Result<String, Fail>
    requires attached { (folder_told folder.old).defs ≡ Some defs.now }
    requires free { (def_of defs.now 0).patterns ≡ [] }
{
    match folder.reopen(alloc) {
        Ok(()) => {}
        Err(_) => return Ok(String::from_str(alloc, "lost")?),
    }
    if !matches!(folder.state(), ResState::Idle) {
        return Ok(String::from_str(alloc, "busy")?);
    }
    let q = names_asked(alloc)?;
    if !folder.caps().can(&q, defs) {
        return Ok(String::from_str(alloc, "unable")?);
    }
    match folder.query(alloc, &q) {
        Ok(rows) => shown(alloc, &rows),
        Err(ResFault::Failed) => Ok(String::from_str(alloc, "failed")?),
        Err(ResFault::Memory) => Ok(String::from_str(alloc, "memory")?),
    }
}

/// What a folder answers to a query of two columns.
fn answer(alloc: Global, bytes: &[u8]) -> Result<String, Fail> {
    let files: Files = Seq::from_vec(vec![in alloc; file(alloc, "a.csv", bytes)?]?);
    let mut folder = CsvFolder::new(alloc, files);
    let table = people(alloc, 0, "a")?;
    let defs = Seq::from_vec(vec![in alloc; table]?);
    if !are_fit(&folder.caps(), &defs) {
        return Ok(String::from_str(alloc, "unfit")?);
    }
    match folder.attach(alloc, &defs) {
        Ok(()) => show(alloc, &mut folder, &defs),
        Err(AttachFault::BadCell { .. }) => Ok(String::from_str(alloc, "cell")?),
        Err(AttachFault::BadStore { .. }) => Ok(String::from_str(alloc, "store")?),
        Err(AttachFault::Failed) => Ok(String::from_str(alloc, "failed")?),
        Err(AttachFault::Memory) => Ok(String::from_str(alloc, "memory")?),
    }
}

#[test]
fn folder_answers(rt: HostRuntime) -> Result<(), Fail> {
    let alloc = rt.alloc();
    let table: [(&[u8], &str); 3] = [
        (
            b"id,name,ok,big\n1,Ann,true,5\n2,,f,6\n",
            "'Ann',1, NULL,2, |",
        ),
        (b"id,name,ok,big\nx,Ann,true,5\n", "cell"),
        (b"id,name,ok\n1,Ann,true\n", "store"),
    ];
    for (bytes, expected) in table {
        assert_eq!(rt; answer(alloc, bytes)?.as_str(), expected);
    }
    let folder = CsvFolder::new(alloc, Seq::new(alloc));
    assert!(rt; folder.caps().equals);
    assert!(rt; matches!(folder.state(), ResState::Idle));
    Ok(())
}
