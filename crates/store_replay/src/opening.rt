//! Opening the log of a store under definitions.

ghost use Rattle.std.specs.Prelude.{◌≡◌, IfOk, IfSome, OnOk};
ghost use Rattle.gate_log.specs.Log.{IsOpen, left_of};
ghost use Rattle.gate_log.specs.Opening.{Keeps};
ghost use Rattle.gate_log.specs.Stops.{Same};
ghost use Rattle.store_replay.specs.OpeningStore as spec;
ghost use Rattle.store_replay.specs.OpeningStore.{IsOpened, IsReplayed, OpensAs, ReplaysAs, NamesFault, OpenLeaves, Looks, LooksOn};
ghost use Rattle.store_replay.specs.Replaying.{AreApart};

use crate::lists::Listing;
use crate::replay::Replay;
use crate::walk::{WalkFault, walk};
use gate_log::{Disk, Log, OpenCause};
use resource::AttachFault;
use std::alloc::Global;
use store_tables::Shelf;
use vdb_model::{Delta, TableDef, TableDefs, Xid};

/// A prepared branch: its transaction, and its deltas of defined tables in turn.
#[derive(Drop)]
pub struct Waiting {
    pub xid: Xid,
    pub deltas: Vec<Delta>,
}

/// A store as it was opened.
#[derive(Drop)]
pub struct Opened {
    pub shelf: Shelf,
    /// The prepared branch, where there is one.
    pub waiting: Option<Waiting>,
    /// How many records the log has.
    pub records: u64,
}

/// The bytes of a record that ends a branch, with its gate.
const ENDING: u64 = 22;

/// What an attach answers where the log isn't read.
fn attach_fault(fault: WalkFault) -> AttachFault
    ensures { result ≡ spec.attach_fault fault }
{
    match fault {
        WalkFault::Broken => AttachFault::BadStore { table: 0 },
        WalkFault::Failed => AttachFault::Failed,
        WalkFault::Memory => AttachFault::Memory,
    }
}

/// Whether the ending of a prepared branch has room, where there is one.
fn has_room<D: Disk>(log: &Log<D>, waiting: &Option<Waiting>) -> bool
    ensures { result ≡ spec.has_room waiting.now (left_of log.now) }
{
    match waiting {
        Some(_) => log.left() >= ENDING,
        None => true,
    }
}

/// Names the fault of tables that aren't in order: the records are taken once more, as lists.
fn fault_of<D: Disk>(alloc: Global, log: &mut Log<D>, defs: &[TableDef]) -> AttachFault
    requires ready { IsOpen D.told D.images log.old }
    ensures answer { IfSome (D.told log.old.disk).bytes (NamesFault defs.now result) }
    ensures leaves { Looks (D.told log.old.disk) (D.told log.new.disk) result }
    ensures stops { Same (D.images log.old.disk) (D.images log.new.disk) }
    ensures ready { IsOpen D.told D.images log.new }
    ensures left { left_of log.new ≡ left_of log.old }
{
    let mut listing = Listing::new(alloc);
    match walk(alloc, log, &mut listing) {
        Ok(_) => match listing.check(alloc, defs) {
            Ok(()) => AttachFault::BadStore { table: 0 },
            Err(fault) => fault,
        },
        Err(fault) => attach_fault(fault),
    }
}

/// Takes the records of an open log, and sees that a prepared branch has room for its ending.
fn replayed<D: Disk>(
    alloc: Global,
    log: &mut Log<D>,
    defs: TableDefs,
) -> Result<Opened, AttachFault>
    requires apart { AreApart defs }
    requires ready { IsOpen D.told D.images log.old }
    ensures answer { IfSome (D.told log.old.disk).bytes (ReplaysAs result) }
    ensures replayed { IfOk result (IsReplayed defs (left_of log.new)) }
    ensures leaves { LooksOn (D.told log.old.disk) (D.told log.new.disk) result }
    ensures stops { Same (D.images log.old.disk) (D.images log.new.disk) }
    ensures ready { IsOpen D.told D.images log.new }
    ensures left { left_of log.new ≡ left_of log.old }
{
    let Ok(mut replay) = Replay::new(alloc, defs) else {
        return Err(AttachFault::Memory);
    };
    let records = match walk(alloc, log, &mut replay) {
        Ok(records) => records,
        Err(fault) => return Err(attach_fault(fault)),
    };
    if !has_room(log, &replay.waiting) {
        return Err(AttachFault::BadStore { table: 0 });
    }
    let Replay { shelf, waiting } = replay;
    Ok(Opened {
        shelf,
        waiting,
        records,
    })
}

/// Takes the records of an open log under definitions, and sees that the tables are in order. The log stays open as it was.
pub fn read_store<D: Disk>(
    alloc: Global,
    log: &mut Log<D>,
    defs: TableDefs,
) -> Result<Opened, AttachFault>
    requires apart { AreApart defs }
    requires ready { IsOpen D.told D.images log.old }
    ensures answer { IfSome (D.told log.old.disk).bytes (OpensAs defs result) }
    ensures opened { IfOk result (IsOpened defs (left_of log.new)) }
    ensures leaves { LooksOn (D.told log.old.disk) (D.told log.new.disk) result }
    ensures stops { Same (D.images log.old.disk) (D.images log.new.disk) }
    ensures ready { IsOpen D.told D.images log.new }
    ensures left { left_of log.new ≡ left_of log.old }
{
    let opened = match replayed(alloc, log, defs) {
        Ok(opened) => opened,
        Err(fault) => return Err(fault),
    };
    if opened.shelf.is_in_order() {
        return Ok(opened);
    }
    Err(fault_of(alloc, log, opened.shelf.defs()))
}

/// Opens the log and takes its records under definitions. The first fault refuses it: records that are no store's, a prepared
/// branch whose ending has no room, or tables that break their definitions.
pub fn open_store<D: Disk>(
    alloc: Global,
    log: &mut Log<D>,
    defs: TableDefs,
) -> Result<Opened, AttachFault>
    requires { AreApart defs }
    ensures answer { IfSome (D.told log.old.disk).bytes (OpensAs defs result) }
    ensures opened { IfOk result (IsOpened defs (left_of log.new)) }
    ensures leaves { OpenLeaves (D.told log.old.disk) (D.told log.new.disk) (D.images log.new.disk) result }
    ensures keeps { Keeps (D.told log.old.disk) (D.images log.old.disk) (D.images log.new.disk) }
    ensures ready { OnOk result (IsOpen D.told D.images log.new) }
{
    match log.reopen() {
        Ok(()) => read_store(alloc, log, defs),
        Err(OpenCause::Bad) => Err(AttachFault::BadStore { table: 0 }),
        Err(OpenCause::Failed) => Err(AttachFault::Failed),
    }
}
