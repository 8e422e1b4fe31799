//! A folder of CSV files as a resource.

ghost use Rattle.std.specs.Prelude.{◌≡◌, Some, None, []};
ghost use Rattle.std.specs.Option.{unwrap_or};
ghost use Rattle.resource.specs.Reading.{Sound};
ghost use Rattle.csv_folder.specs.Folder.{read_folder};
ghost use Rattle.csv_folder.specs.Told as spec;

use crate::file::Files;
use crate::tables::{read_tables, rows_of};
use resource::{AttachFault, ChangeFault, ResFault, ResState, Resource, Vote, passing_cut};
use std::alloc::Global;
use vdb_base::{Failed, NoMemory, Nums, Row, Rows, Seq};
use vdb_model::{Caps, Delta, SourceQuery, TableDefs, Xid};

/// What a folder of CSV files can be asked.
pub fn csv_caps() -> Caps
    ensures { result ≡ spec.csv_caps }
{
    Caps {
        equals: true,
        ordered: false,
        in_max: 1000,
        is_null: true,
        like: false,
        or: false,
        not: false,
        joins: false,
        distinct: false,
        order: false,
        limit: false,
        count_star: false,
        wide: true,
        writes: false,
    }
}

/// A folder of CSV files, one for each table, which is read alone.
///
/// A table reads the file of its source name and `.csv` whenever it is attached, and its rows are kept from then on. Two
/// tables may have one file, and two columns of a table one name in it.
#[derive(Drop)]
pub struct CsvFolder {
    files: Files,
    /// Whether it says that it takes writes. `new` says no, so no branch is begun; the calls of a branch are there for both.
    writes: bool,
    state: ResState,
    defs: Option<TableDefs>,
    tables: Seq<Rows>,
    asked: Vec<SourceQuery>,
    ghost read_so: { read_folder files (unwrap_or defs []) ≡ Sound tables None },
}

impl CsvFolder {
    ghost use Rattle.csv_folder.specs.CsvFolder.{folder_told, unattached};

    /// Takes no memory.
    pub fn new(alloc: Global, files: Files) -> CsvFolder
        ensures { folder_told result ≡ unattached files }
    {
        CsvFolder {
            files,
            writes: false,
            state: ResState::Idle,
            defs: None,
            tables: Seq::new(alloc),
            asked: Vec::new(alloc),
        }
    }

    /// The rows of the first of the tables.
    fn rows_asked(&self, tables: &Nums) -> &[Row]
        ensures { result.now ≡ spec.rows_asked self.now.defs self.now.tables tables.now }
    {
        match (&self.defs, tables.get(0)) {
            (Some(defs), Some(number)) => {
                rows_of(self.tables.as_slice(), defs.as_slice(), *number)
            }
            _ => &[],
        }
    }
}

impl Resource for CsvFolder {
    ghost use Rattle.csv_folder.specs.CsvFolder.{folder_told, folder_images};

    ghost told = { folder_told };

    ghost images = { folder_images };

    ghost needs = { λ defs deltas. 0 };

    fn caps(&self) -> Caps {
        let mut caps = csv_caps();
        caps.writes = self.writes;
        caps
    }

    fn state(&self) -> ResState {
        self.state
    }

    fn attach(&mut self, alloc: Global, defs: &TableDefs) -> Result<(), AttachFault> {
        self.defs = None;
        self.tables = Seq::new(alloc);
        let tables = match read_tables(alloc, self.files.as_slice(), defs.as_slice()) {
            Ok(tables) => tables,
            Err(fault) => return Err(fault),
        };
        let Ok(defs) = defs.copy(alloc) else {
            return Err(AttachFault::Memory);
        };
        self.state = ResState::Idle;
        self.defs = Some(defs);
        self.tables = tables;
        Ok(())
    }

    fn clear_asked(&mut self) {
        self.asked.clear();
    }

    fn query(&mut self, alloc: Global, q: &SourceQuery) -> Result<Rows, ResFault> {
        let rows = self.rows_asked(&q.tables);
        let Ok(rows) = passing_cut(alloc, q.filter.as_slice(), q.columns.as_slice(), rows) else {
            return Err(ResFault::Memory);
        };
        let Ok(asked) = q.copy(alloc) else {
            return Err(ResFault::Memory);
        };
        if self.asked.push(asked).is_err() {
            return Err(ResFault::Memory);
        }
        Ok(rows)
    }

    fn start(&mut self, x: Xid) -> Result<(), Failed> {
        self.state = ResState::Active(x);
        Ok(())
    }

    fn change(&mut self, _alloc: Global, _delta: &Delta) -> Result<(), ChangeFault> {
        Err(ChangeFault::Memory)
    }

    fn end(&mut self, x: Xid) -> Result<(), Failed> {
        self.state = ResState::Ended(x);
        Ok(())
    }

    fn prepare(&mut self, _alloc: Global, _x: Xid) -> Result<Vote, ResFault> {
        self.state = ResState::Idle;
        Ok(Vote::ReadOnly)
    }

    fn reserve_one_phase(&mut self, _alloc: Global) -> Result<(), NoMemory> {
        Err(NoMemory)
    }

    fn commit(&mut self, _x: Xid, _one_phase: bool) -> Result<(), Failed> {
        self.state = ResState::Idle;
        Ok(())
    }

    fn rollback(&mut self, _x: Xid) -> Result<(), Failed> {
        self.state = ResState::Idle;
        Ok(())
    }

    fn recover(&mut self) -> Result<Option<Xid>, Failed> {
        match self.state {
            ResState::Prepared(x) => Ok(Some(x)),
            _ => Ok(None),
        }
    }

    fn reopen(&mut self, _alloc: Global) -> Result<(), ResFault> {
        self.state = ResState::Idle;
        Ok(())
    }
}
