//! The maker of the program: it reads the DDL and the CSV files of its tables.

ghost use Rattle.std.specs.Prelude.{◌≡◌, true, false, IfOk};
ghost use Rattle.csv_folder.specs.CsvFolder.{folder_told};
ghost use Rattle.resource.specs.Lanes.{labels_of};
ghost use Rattle.resource.specs.Told.{is_lost};
ghost use Rattle.vdb.specs.Making.{labels};
ghost use Rattle.vdb_session.specs.Lanes.{are_here};

use crate::maker::{MakeFault, Maker};
use crate::words::{Conn, Setup};
use csv_folder::{CsvFolder, File, csv_caps};
use metadata::{ConnInfo, ConnInfos, DeployRefusal, deploy};
use resource::{Lane, Lanes};
use sql_reader::read::ReadFault;
use std::alloc::Global;
use std::fs::{self, Files};
use std::io::{self, ErrorKind, Read};
use vdb_base::{Bytes, Calls, NoMemory, Seq, Text};
use vdb_ddl::read_ddl;
use vdb_ddl::tree::Items;
use vdb_model::{Catalog, TableDef};
use vdb_session::{Parts, serves};

/// One byte more than a CSV file may have: of a longer one no more is read, and its table refuses it.
const MOST_READ: u64 = 67_108_865;

/// Why a file gives no bytes.
#[derive(Clone, Copy, Debug, PartialEq, Eq)]
enum FileFault {
    /// It is there, and can't be read.
    Refused,
    /// There is none of the name.
    Missing,
    Memory,
}

impl From<NoMemory> for FileFault {
    fn from(_error: NoMemory) -> FileFault {
        FileFault::Memory
    }
}

fn fault_of(error: &io::Error) -> FileFault {
    match error.kind() {
        ErrorKind::OutOfMemory => FileFault::Memory,
        ErrorKind::NotFound => FileFault::Missing,
        _ => FileFault::Refused,
    }
}

/// All bytes of a file, or as many as are allowed.
fn read_file<R: Files + AllocGlobal>(rt: &R, path: &str, most: u64) -> Result<Bytes, FileFault> {
    let file = match fs::open(rt, path) {
        Ok(file) => file,
        Err(error) => return Err(fault_of(&error)),
    };
    let mut bytes = Vec::new(rt.alloc());
    match file.take(most).read_to_end(&mut bytes) {
        Ok(_) => Ok(Seq::from_vec(bytes)),
        Err(error) => Err(fault_of(&error)),
    }
}

/// The connections as a deployment sees them, whose stores are folders of CSV files.
fn infos_of(alloc: Global, conns: &[Conn]) -> Result<ConnInfos, FileFault> {
    let mut infos = Seq::new(alloc);
    for conn in conns {
        infos.push(ConnInfo {
            name: conn.name.copy(alloc)?,
            kind: conn.kind,
            caps: csv_caps(),
        })?;
    }
    Ok(infos)
}

/// What items define over the connections; nothing, if they don't deploy.
fn deploy_items(alloc: Global, items: &Items, infos: &ConnInfos) -> Result<Catalog, FileFault> {
    match deploy(alloc, items, infos) {
        Ok(catalog) => Ok(catalog),
        Err(DeployRefusal::Refused(_)) => Ok(Catalog::new(alloc)),
        Err(DeployRefusal::Memory) => Err(FileFault::Memory),
    }
}

/// What a DDL defines over the connections; nothing, if it isn't read or doesn't deploy, which the engine then tells.
fn catalog_of(alloc: Global, ddl: &[u8], conns: &[Conn]) -> Result<Catalog, FileFault> {
    let infos = infos_of(alloc, conns)?;
    match read_ddl(alloc, ddl) {
        Ok(items) => deploy_items(alloc, &items, &infos),
        Err(ReadFault::Syntax { at: _ }) => Ok(Catalog::new(alloc)),
        Err(ReadFault::Memory) => Err(FileFault::Memory),
    }
}

/// The name of a table's file in its folder: `SOURCE.csv`.
fn name_of(alloc: Global, source: &Text) -> Result<Text, FileFault> {
    let mut name = source.copy(alloc)?;
    name.push_str(".csv")?;
    Ok(name)
}

/// The path of a file in the folder.
fn path_of(alloc: Global, folder: &Text, name: &Text) -> Result<Text, FileFault> {
    let mut path = folder.copy(alloc)?;
    path.push_str("/")?;
    path.push_str(name.as_str())?;
    Ok(path)
}

/// Whether a table of the server before this one has its file, which is then read once for both.
fn is_read(tables: &[TableDef], table: &TableDef) -> bool {
    tables.iter().any(|other| {
        other.number < table.number && other.server == table.server && other.source == table.source
    })
}

/// A table's file where the folder has it. A source name with `/` in it has none, so that a folder is never left.
fn read_table<R: Files + AllocGlobal>(
    rt: &R,
    folder: &Text,
    table: &TableDef,
) -> Result<Option<File>, FileFault> {
    if table.source.as_str().contains('/') {
        return Ok(None);
    }
    let alloc = rt.alloc();
    let name = name_of(alloc, &table.source)?;
    let path = path_of(alloc, folder, &name)?;
    match read_file(rt, path.as_str(), MOST_READ) {
        Ok(bytes) => Ok(Some(File { name, bytes })),
        Err(FileFault::Missing) => Ok(None),
        Err(fault) => Err(fault),
    }
}

/// The files of the connection's folder that its server's tables are in.
fn read_tables<R: Files + AllocGlobal>(
    rt: &R,
    conn: &Conn,
    catalog: &Catalog,
) -> Result<csv_folder::Files, FileFault> {
    let mut files = Seq::new(rt.alloc());
    let tables = catalog.tables().as_slice();
    for table in tables {
        if serves(catalog, table.server, &conn.name) && !is_read(tables, table) {
            if let Some(file) = read_table(rt, &conn.path, table)? {
                files.push(file)?;
            }
        }
    }
    Ok(files)
}

fn make_lane<R: Files + AllocGlobal>(
    rt: &R,
    conn: &Conn,
    catalog: &Catalog,
) -> Result<Lane<CsvFolder>, FileFault>
    ensures name { IfOk result (λ lane. lane.name ≡ conn.now.name) }
    ensures kind { IfOk result (λ lane. lane.kind ≡ conn.now.kind) }
    ensures here { IfOk result (λ lane. is_lost (folder_told lane.res).state ≡ false) }
{
    let alloc = rt.alloc();
    let name = conn.name.copy(alloc)?;
    let files = read_tables(rt, conn, catalog)?;
    Ok(Lane::new(name, conn.kind, CsvFolder::new(alloc, files)))
}

/// A lane for each connection, over what is defined.
fn make_lanes<R: Files + AllocGlobal>(
    rt: &R,
    conns: &[Conn],
    catalog: &Catalog,
) -> Result<Lanes<CsvFolder>, FileFault>
    ensures labels { IfOk result (λ lanes. labels_of lanes ≡ labels conns.now) }
    ensures here { IfOk result (λ lanes. are_here folder_told lanes ≡ true) }
{
    let mut lanes = Vec::new(rt.alloc());
    for conn in conns {
        if lanes.push(make_lane(rt, conn, catalog)?).is_err() {
            return Err(FileFault::Memory);
        }
    }
    Ok(Lanes::from_vec(lanes))
}

/// A lane for each connection, over what the DDL defines.
fn lanes_of<R: Files + AllocGlobal>(
    rt: &R,
    conns: &[Conn],
    ddl: &[u8],
) -> Result<Lanes<CsvFolder>, FileFault>
    ensures labels { IfOk result (λ lanes. labels_of lanes ≡ labels conns.now) }
    ensures here { IfOk result (λ lanes. are_here folder_told lanes ≡ true) }
{
    let catalog = catalog_of(rt.alloc(), ddl, conns)?;
    make_lanes(rt, conns, &catalog)
}

fn make_parts<R: Files + AllocGlobal>(rt: &R, setup: &Setup) -> Result<Parts<CsvFolder>, FileFault>
    ensures labels { IfOk result (λ parts. labels_of parts.lanes ≡ labels setup.now.conns) }
    ensures here { IfOk result (λ parts. are_here folder_told parts.lanes ≡ true) }
{
    let ddl = read_file(rt, setup.vdb.as_str(), u64::MAX)?;
    let lanes = lanes_of(rt, setup.conns.as_slice(), ddl.as_slice())?;
    Ok(Parts { ddl, lanes })
}

/// Makes lanes of folders of CSV files, whose files it reads.
///
/// A DDL or a file that is there and can't be read is a fault of the maker. What a file says is for its table to refuse.
#[derive(Drop)]
pub struct FileMaker<'a, R> {
    rt: &'a R,
    calls: Calls,
}

impl<'a, R: Files + AllocGlobal> FileMaker<'a, R> {
    pub fn new(rt: &'a R) -> FileMaker<'a, R> {
        FileMaker {
            rt,
            calls: Calls::new(Seq::new(rt.alloc())),
        }
    }
}

impl<'a, R: Files + AllocGlobal> Maker for FileMaker<'a, R> {
    ghost use Rattle.std.specs.Prelude.{None};
    ghost use Rattle.vdb.specs.Making.{Keeps};

    type S = CsvFolder;

    ghost told = { λ m. record { held = None; faults = m.calls.faults } };

    fn make(&mut self, setup: &Setup) -> Result<Parts<CsvFolder>, MakeFault> {
        match make_parts(self.rt, setup) {
            Ok(parts) => Ok(parts),
            Err(FileFault::Memory) => Err(MakeFault::Memory),
            Err(FileFault::Missing | FileFault::Refused) => {
                self.calls.fail();
                Err(MakeFault::Failed)
            }
        }
    }

    fn keep(&mut self, _parts: Parts<CsvFolder>)
        ensures { Keeps (record { held = None; faults = self.old.calls.faults }) (record { held = None; faults = self.new.calls.faults }) _parts }
    {}
}
