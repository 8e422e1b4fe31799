//! Reading a log record by record into what is built up from it.

ghost use Rattle.std.specs.Prelude.{◌≡◌, ◌<◌, ◌≤◌, List, ℕ, IfOk, IfErr, IfSome, OnOk};
ghost use Rattle.gate_log.specs.Log.{IsOpen, left_of};
ghost use Rattle.gate_log.specs.Stops.{Same};
ghost use Rattle.vdb_model.specs.declared.table.TableDef.{TableDef};
ghost use Rattle.store_replay.specs.Replay.{Replayed, nothing, after_entry, after_payload};
ghost use Rattle.store_replay.specs.Walking.{Follows, Spans, TakenTo, IsFurther, IsOfReading, Walks, StepsTo, Reads};

use gate_log::{Disk, Log, Span};
use std::alloc::Global;
use store_records::{Entry, ReadFault, read_entry};

/// What is built up from the records of a log, taken one after the other.
pub trait Takes {
    /// The records so far left this, and it is held.
    ghost has: { Replayed → Self → Type 0 };

    /// The definitions that records are taken under. They stay.
    ghost under: { Self → List TableDef };

    /// Takes one record more.
    fn take(&mut self, alloc: Global, entry: Entry) -> Result<(), ReadFault>
        ensures goes_on { (r : Replayed) → has r self.old → Follows has (after_entry entry r) self.new result }
        ensures under { under self.new ≡ under self.old };
}

/// Why a log isn't read.
#[derive(Clone, Copy, Debug, PartialEq, Eq)]
pub enum WalkFault {
    /// Its records are no store's.
    Broken,
    /// The disk failed.
    Failed,
    Memory,
}

/// How far a walk has come: the next gate, and how many records were taken.
#[derive(Clone, Copy)]
pub struct Place {
    at: u64,
    taken: u64,
}

/// The place of the first gate.
const FIRST: u64 = 8;

/// The payload in a span.
fn payload_in<D: Disk>(alloc: Global, log: &mut Log<D>, span: Span) -> Result<Vec<u8>, WalkFault>
    requires ready { IsOpen D.told D.images log.old }
    requires here { IfSome (D.told log.old.disk).bytes (λ bytes. (payload : List ℕ) × Spans span payload bytes) }
    ensures answer { IfOk result (λ read. IfSome (D.told log.old.disk).bytes (λ bytes. (payload : List ℕ) → Spans span payload bytes → read.items ≡ payload)) }
    ensures fault { IfErr result IsOfReading }
    ensures leaves { Reads (D.told log.old.disk) (D.told log.new.disk) result }
    ensures stops { Same (D.images log.old.disk) (D.images log.new.disk) }
    ensures ready { IsOpen D.told D.images log.new }
    ensures left { left_of log.new ≡ left_of log.old }
{
    let Ok(mut buffer) = vec![in alloc; 0u8; span.len as usize] else {
        return Err(WalkFault::Memory);
    };
    match log.read(span.start, buffer.as_mut_slice()) {
        Ok(()) => Ok(buffer),
        Err(_) => Err(WalkFault::Failed),
    }
}

/// Takes the record of a payload.
fn take_payload<T: Takes>(alloc: Global, state: &mut T, payload: &[u8]) -> Result<(), ReadFault>
    ensures goes_on { (r : Replayed) → T.has r state.old → Follows T.has (after_payload payload.now r) state.new result }
    ensures under { T.under state.new ≡ T.under state.old }
{
    let entry = match read_entry(alloc, payload) {
        Ok(entry) => entry,
        Err(fault) => return Err(fault),
    };
    state.take(alloc, entry)
}

/// Takes the record at a gate, and says how far that is; none where no record is left.
fn take_next<D: Disk, T: Takes>(
    alloc: Global,
    log: &mut Log<D>,
    state: &mut T,
    place: Place,
) -> Result<Option<Place>, WalkFault>
    requires ready { IsOpen D.told D.images log.old }
    requires so_far { IfSome (D.told log.old.disk).bytes (TakenTo T.has place state.old) }
    requires few { place.taken ≤ place.at }
    ensures answer { IfSome (D.told log.old.disk).bytes (StepsTo T.has place state.new result) }
    ensures taken { OnOk result ((r : Replayed) → T.has r state.old → (s : Replayed) × T.has s state.new) }
    ensures behind { IfOk result (λ next. IfSome next (IsFurther place)) }
    ensures under { T.under state.new ≡ T.under state.old }
    ensures leaves { Reads (D.told log.old.disk) (D.told log.new.disk) result }
    ensures stops { Same (D.images log.old.disk) (D.images log.new.disk) }
    ensures ready { IsOpen D.told D.images log.new }
    ensures left { left_of log.new ≡ left_of log.old }
{
    let span = match log.next(place.at) {
        Ok(Some(span)) => span,
        Ok(None) => return Ok(None),
        Err(_) => return Err(WalkFault::Failed),
    };
    let payload = match payload_in(alloc, log, span) {
        Ok(payload) => payload,
        Err(fault) => return Err(fault),
    };
    match take_payload(alloc, state, payload.as_slice()) {
        Ok(()) => Ok(Some(Place {
            at: span.next,
            taken: place.taken + 1,
        })),
        Err(ReadFault::Broken) => Err(WalkFault::Broken),
        Err(ReadFault::Memory) => Err(WalkFault::Memory),
    }
}

/// Takes all records of a log, and counts them. Nothing was taken before.
pub fn walk<D: Disk, T: Takes>(
    alloc: Global,
    log: &mut Log<D>,
    state: &mut T,
) -> Result<u64, WalkFault>
    requires ready { IsOpen D.told D.images log.old }
    requires blank { T.has nothing state.old }
    ensures answer { IfSome (D.told log.old.disk).bytes (Walks T.has state.new result) }
    ensures taken { OnOk result ((r : Replayed) × T.has r state.new) }
    ensures under { T.under state.new ≡ T.under state.old }
    ensures leaves { Reads (D.told log.old.disk) (D.told log.new.disk) result }
    ensures stops { Same (D.images log.old.disk) (D.images log.new.disk) }
    ensures ready { IsOpen D.told D.images log.new }
    ensures left { left_of log.new ≡ left_of log.old }
{
    let mut place = Place {
        at: FIRST,
        taken: 0,
    };
    'records: loop {
        match take_next(alloc, log, state, place) {
            Ok(Some(next)) => place = next,
            Ok(None) => return Ok(place.taken),
            Err(fault) => return Err(fault),
        }
    }
}
